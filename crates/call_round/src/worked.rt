// What a round works out before anything that is lent changes but the scratch: marks, offers and awards.
ghost use Rattle.std.specs.Prelude.{◌≡◌, true, false, ◌≤◌, length};
ghost use Rattle.market.specs.Books.{every, in_megawatts};
ghost use Rattle.market.specs.Limits.{bid_limit, scratch_words};
ghost use Rattle.market.specs.Sound.{sound_book, sound_quantity};
ghost use Rattle.round_bids.specs.BidRefusals.{BidList};
ghost use Rattle.round_bids.specs.Bids.{bids_of};
ghost use Rattle.call_round.specs.Round.{offered_now, marks_now};
ghost use Rattle.call_round.specs.Padded.{padded};
ghost use Rattle.call_round.specs.Ready.{AwardedOut};

use crate::stage;
use market::book::Book;
use market::engine::Engine;
use market::units::Megawatts;
use round_awards::Awarded;

// The marks of the bids, the number of bids, and what the round offers of each path.
#[derive(Clone, Copy)]
pub struct Worked {
    pub marks: [u32; Engine::BIDS],
    pub bids: usize,
    pub offered: [Megawatts; Engine::PATHS],
}

// The marks, the number of bids, and the offers of a round.
pub fn work_out(book: Book, bids: &[u32]) -> Worked
    requires book_value { sound_book book ≡ true }
    requires bid_list { BidList bids.now }
    ensures marks { result.marks ≡ padded (marks_now book (bids_of bids.now)) (length (bids_of bids.now)) }
    ensures bids { result.bids ≡ length (bids_of bids.now) }
    ensures offered { in_megawatts result.offered ≡ offered_now book }
{
    let bidders = book.bidders;
    let limits = round_admission::limits_of(bidders);
    let marked = round_admission::marks_of(bids, limits);
    let stage = book.stage;
    let paths = book.paths;
    let kind = stage::kind_of(stage);
    let number = stage::round_of(stage);
    let offered = round_paths::offered_by(kind, number, paths, book.path_count);
    let marks = marked.marks;
    Worked {
        marks,
        bids: marked.bids,
        offered,
    }
}

// The awards of a round. They are put in order in the scratch that is lent if it is `sure` that nothing is refused, and
// otherwise apart from it.
pub fn award(bids: &[u32], worked: Worked, sure: bool, scratch: &mut [u32]) -> Awarded
    requires bid_list { BidList bids.now }
    requires bids_value { worked.bids ≡ length (bids_of bids.now) }
    requires marks_len { length worked.marks ≡ bid_limit }
    requires offered_value { every sound_quantity (in_megawatts worked.offered) ≡ true }
    requires scratch_words_in_bounds { scratch_words ≤ length scratch.old }
    ensures awards { AwardedOut worked bids.now result }
    ensures scratch { length scratch.new ≡ length scratch.old }
    ensures apart { sure ≡ false → scratch.new ≡ scratch.old }
{
    let marks = worked.marks;
    let offered = worked.offered;
    if sure {
        return round_awards::award_bids(bids, &marks, worked.bids, offered, scratch);
    }
    let mut own = [0u32; Engine::SCRATCH_WORDS];
    round_awards::award_bids(bids, &marks, worked.bids, offered, &mut own)
}
