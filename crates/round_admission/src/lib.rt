// Bidding limits, and which bids of a round are admitted.
#![tactic(auto)]

ghost use Rattle.std.specs.Prelude.{◌≡◌, true, cond, map, ◌++◌, ◌-◌, ◌≤◌, leb, length, replicate};
ghost use Rattle.market.specs.Sound.{BidderBounds, AllWithin};
ghost use Rattle.market.specs.Books.{every, in_cents};
ghost use Rattle.market.specs.Limits.{bid_limit, step_limit, admitted, over};
ghost use Rattle.round_bids.specs.BidRefusals.{BidList};
ghost use Rattle.round_bids.specs.Bids.{bids_of};
ghost use Rattle.round_admission.specs.Admission.{multiplier, bidding_limit, within_top, marks_of};

use market::book::Bidder;
use market::engine::Engine;
use market::units::Cents;

// What a step multiplies by.
fn multiplier_of(step: u32) -> u64
    requires { step ≤ step_limit }
    ensures { result ≡ multiplier step }
{
    Engine::MULTIPLIERS[step as usize]
}

// A bidder's limit: the values of its admitted bids in a round are at most this.
fn limit_of(bidder: Bidder) -> Cents
    requires { BidderBounds bidder }
    ensures { result.0 ≡ bidding_limit bidder }
{
    let funds = bidder.cash.0 + bidder.letter.0 - bidder.hold.0;
    Cents(multiplier_of(bidder.step) * funds)
}

// The limits of all bidders, by number.
pub fn limits_of(bidders: [Bidder; Engine::BIDDERS]) -> [Cents; Engine::BIDDERS]
    requires { AllWithin bidders }
    ensures { in_cents result ≡ map bidding_limit bidders }
{
    bidders.map(limit_of)
}

// The mark of a bid: admitted if `total`, the bidder's admitted values with this one, is within the limit.
fn mark_of(total: Cents, limit: Cents) -> u32
    ensures { result ≡ cond (leb total.0 limit.0) admitted over }
{
    if total <= limit {
        return Engine::ADMITTED;
    }
    Engine::OVER
}

// The values admitted after a bid: with its value where it is admitted, and as before where it is over.
fn used_after(before: Cents, total: Cents, limit: Cents) -> Cents
    ensures { result.0 ≡ cond (leb total.0 limit.0) total.0 before.0 }
{
    if total <= limit {
        return total;
    }
    before
}

// The marks of a round's bids, in list order and 0 past the last, and the number of bids.
#[derive(Clone, Copy)]
pub struct Marks {
    pub marks: [u32; Engine::BIDS],
    pub bids: usize,
}

// The marks of the bids of a list. `used` has the values admitted so far.
pub fn marks_of(words: &[u32], limits: [Cents; Engine::BIDDERS]) -> Marks
    requires bid_list { BidList words.now }
    requires limits_value { every within_top (in_cents limits) ≡ true }
    ensures marks { result.marks
        ≡ marks_of (in_cents limits) (bids_of words.now) ++ replicate (bid_limit - length (bids_of words.now)) 0 }
    ensures bids { result.bids ≡ length (bids_of words.now) }
{
    let mut marks = [0; Engine::BIDS];
    let mut used = [Cents(0); Engine::BIDDERS];
    for (k, at) in round_bids::places(words).enumerate() {
        let header = round_bids::header_at(words, at);
        let value = round_bids::bid_value(words, at);
        let bidder = header.bidder as usize;
        let before = used[bidder];
        let total = Cents(before.0 + value.0);
        let limit = limits[bidder];
        let mark = mark_of(total, limit);
        let after = used_after(before, total, limit);
        marks[k] = mark;
        used[bidder] = after;
    }
    let bids = round_bids::bid_count(words);
    Marks { marks, bids }
}
