// Whether a book is sound: each function decides one definition of the rules.
#![tactic(auto)]

ghost use Rattle.std.specs.Prelude.{◌≡◌, ◌&&◌, ◌+◌, ◌≤◌, leb, eqb, take};
ghost use Rattle.market.specs.Books.{every, ◌implies◌, no_value};
ghost use Rattle.market.specs.Limits.{path_limit, round_two_owed_limit};
ghost use Rattle.market.specs.Sound.{sound_round, sound_stage, round_of, sound_path, sound_bidder, sound_book};

use market::book::{Bidder, Book, Kind, Path, Stage};
use market::engine::Engine;

// Whether a sum is within a limit; the sum itself may be too large for a word.
fn sum_within(a: u64, b: u64, limit: u64) -> bool
    ensures { result ≡ leb (a + b) limit }
{
    a.checked_add(b).is_some_and(|sum| sum <= limit)
}

fn sound_round(kind: Kind, round: u32) -> bool
    ensures { result ≡ sound_round kind round }
{
    match kind {
        Kind::Short => round == 1,
        Kind::Long => matches!(round, 1 | 2),
    }
}

fn sound_stage(stage: Stage) -> bool
    ensures { result ≡ sound_stage stage }
{
    match stage {
        Stage::Idle => true,
        Stage::Open {
            kind,
            round,
            period,
        } => sound_round(kind, round) && book_parts::sound_period(period),
    }
}

// The open auction's next round, and 0 where the stage is idle.
fn round_of(stage: Stage) -> u32
    ensures { result ≡ round_of stage }
{
    match stage {
        Stage::Idle => 0,
        Stage::Open { round, .. } => round,
    }
}

fn sound_path(round: u32, path: Path) -> bool
    ensures { result ≡ sound_path round path }
{
    path.zone <= Engine::ZONE_LIMIT
        && (round != 1 || path.sold.0 == 0)
        && path.sold <= path.offer
        && path.offer.0 <= Engine::QUANTITY_LIMIT
}

// Whether a bidder meets what the next round asks in addition to the fixed bounds.
fn fits_round(round: u32, bidder: Bidder) -> bool
    ensures { result ≡ ((eqb round 1 implies no_value bidder) && (eqb round 2 implies leb bidder.owed.0 round_two_owed_limit)) }
{
    match round {
        1 => book_parts::no_value(bidder),
        2 => bidder.owed.0 <= Engine::ROUND_TWO_OWED_LIMIT,
        _ => true,
    }
}

fn sound_bidder(round: u32, bidder: Bidder) -> bool
    ensures { result ≡ sound_bidder round bidder }
{
    fits_round(round, bidder)
        && sum_within(bidder.cash.0, bidder.applied.0, Engine::MONEY_LIMIT)
        && bidder.letter.0 <= Engine::MONEY_LIMIT
        && bidder.hold <= bidder.letter
        && bidder.owed.0 <= Engine::OWED_LIMIT
        && bidder.step <= Engine::STEP_LIMIT
}

// Whether each path is sound.
fn sound_paths(round: u32, paths: &[Path]) -> bool
    ensures { result ≡ every (sound_path round) paths.now }
{
    paths.iter().all(|path| sound_path(round, *path))
}

// Whether each bidder is sound.
fn sound_bidders(round: u32, bidders: &[Bidder]) -> bool
    ensures { result ≡ every (sound_bidder round) bidders.now }
{
    bidders.iter().all(|bidder| sound_bidder(round, *bidder))
}

// Whether a book is sound.
#[tactic(auto, unfolding(market::specs::Sound::sound_book))]
pub fn sound_book(book: Book) -> bool
    ensures { result ≡ sound_book book }
{
    let round = round_of(book.stage);
    market::book::sound_path_count(book.path_count)
        && book.entries <= Engine::ENTRIES
        && sound_stage(book.stage)
        && sound_paths(round, &book.paths[..book.path_count])
        && sound_bidders(round, &book.bidders)
        && book_account::sound(book.account)
}
