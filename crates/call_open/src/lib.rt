// Open: opens an auction and stores what it offers of each path.
#![tactic(auto)]

mod parts;
mod paths;

ghost use Rattle.std.specs.Prelude.{◌≡◌, ◌++◌, ◌≤◌, length};
ghost use Rattle.market.specs.Answers.{first_of};
ghost use Rattle.register.specs.Refusals.{register_refusals};
ghost use Rattle.market.specs.declared.book.Kind.{Kind};
ghost use Rattle.call_rules.specs.Steps.{verdict_of, outcome_of};
ghost use Rattle.call_open.specs.OpenedPaths.{words_needed};
ghost use Rattle.call_open.specs.Open as rules;

use market::answer::{Answer, Outcome, Refusal};
use market::book::{Book, Kind, Period, Stage};
use market::engine::Engine;

// The refusals of what is lent: 1 for too few quantities, 1 or 2 for the register.
fn check_lent(book: Book, words: &[u32], quantities: &[u32]) -> Result<(), Refusal>
    ensures { result ≡ first_of (rules.short_quantities book quantities.now ++ register_refusals book words.now) }
{
    let count = book.path_count;
    if quantities.len() / Engine::QUANTITY_WORDS < count {
        return Err(Refusal::ShortBuffer);
    }
    register_sound::check(book, words)
}

// Open's own refusals, 20, 21 and 25.
fn check_own(book: Book, period: Period, quantities: &[u32]) -> Result<(), Refusal>
    requires { words_needed book ≤ length quantities.now }
    ensures { result ≡ first_of (rules.open_refusals book period quantities.now) }
{
    let stage = book.stage;
    if !book_parts::is_idle(stage) {
        return Err(Refusal::Stage);
    }
    let bidders = book.bidders;
    if !parts::no_values(bidders) {
        return Err(Refusal::Stage);
    }
    if !book_parts::sound_period(period) {
        return Err(Refusal::Days);
    }
    let needed = book.path_count * Engine::QUANTITY_WORDS;
    if !parts::all_sound(quantities, needed) {
        return Err(Refusal::Quantity);
    }
    Ok(())
}

// Whether open is refused, whatever the kind.
fn check(book: Book, words: &[u32], period: Period, quantities: &[u32]) -> Result<(), Refusal>
    ensures { (kind : Kind) → result ≡ verdict_of (rules.«open» kind period quantities.now) book words.now }
{
    check_lent(book, words, quantities)?;
    check_own(book, period, quantities)
}

// Opens an auction for a period, with the four quantities of each path: base, FUL, A and B.
pub fn open(book: Book, words: &[u32], kind: Kind, period: Period, quantities: &[u32]) -> Outcome
    ensures { result ≡ outcome_of (rules.«open» kind period quantities.now) book words.now }
{
    if let Err(refusal) = check(book, words, period, quantities) {
        return Outcome {
            answer: Err(refusal),
            book,
        };
    }
    let paths = paths::opened_paths(book, words, kind, period, quantities);
    let stage = Stage::Open {
        kind,
        round: 1,
        period,
    };
    Outcome {
        answer: Ok(Answer::Done),
        book: book_parts::with_auction(book, paths, stage),
    }
}
