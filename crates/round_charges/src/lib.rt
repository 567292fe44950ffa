// The charges of a round's bids, and the answers for them.
#![tactic(auto)]

ghost use Rattle.std.specs.Prelude.{◌≡◌, true, ◌++◌, ◌∷◌, [], ◌+◌, ◌*◌, ◌≤◌, ◌<◌, length, take, drop};
ghost use Rattle.market.specs.Books.{every, cents, in_cents, in_megawatts, with_front};
ghost use Rattle.market.specs.Limits.{bid_limit, bid_answer_size, bid_answer_words};
ghost use Rattle.market.specs.Sound.{sound_quantity};
ghost use Rattle.round_bids.specs.BidRefusals.{BidList};
ghost use Rattle.round_bids.specs.Bids.{bids_of, lamination_value_limit};
ghost use Rattle.round_charges.specs.Charges.{sound_clearing_price, within_charges, charges_of, bid_rows};

use market::engine::Engine;
use market::units::{Cents, Megawatts};

// The charge for `won` MW at a clearing price.
fn charge(price: Cents, won: Megawatts) -> Cents
    requires price_value { sound_clearing_price price.0 ≡ true }
    requires won_value { sound_quantity won.0 ≡ true }
    ensures value { result ≡ cents (price.0 * won.0) }
    ensures result_le_lamination_value_limit { result.0 ≤ lamination_value_limit }
{
    Cents(price.0 * u64::from(won.0))
}

// The charges of each bidder.
pub fn charges_of(
    words: &[u32],
    won: [Megawatts; Engine::BIDS],
    prices: [Cents; Engine::PATHS],
) -> [Cents; Engine::BIDDERS]
    requires bid_list { BidList words.now }
    requires won_value { every sound_quantity (in_megawatts won) ≡ true }
    requires prices_value { every sound_clearing_price (in_cents prices) ≡ true }
    ensures result_value { in_cents result ≡ charges_of (in_megawatts won) (in_cents prices) (bids_of words.now) }
    ensures result_value_2 { every within_charges (in_cents result) ≡ true }
{
    let mut charges = [Cents(0); Engine::BIDDERS];
    for (k, at) in round_bids::places(words).enumerate() {
        let header = round_bids::header_at(words, at);
        let path = header.path as usize;
        let bidder = header.bidder as usize;
        let bill = charge(prices[path], won[k]);
        charges[bidder].0 += bill.0;
    }
    charges
}

// A row of `N` words, put at place `k` of a list of such rows.
pub fn put_row<const N: usize>(answers: &mut [u64], k: usize, row: [u64; N])
    requires { (k + 1) * N ≤ length answers.old }
    ensures { answers.new ≡ take (k * N) answers.old ++ row.entry ++ drop (k * N + N) answers.old }
{
    let at = k * N;
    answers[at..at + N].copy_from_slice(&row);
}

// The answers of the bids, at the front of the list that is lent for them.
pub fn write_bids(
    words: &[u32],
    marks: &[u32],
    won: [Megawatts; Engine::BIDS],
    prices: [Cents; Engine::PATHS],
    answers: &mut [u64],
)
    requires bid_list { BidList words.now }
    requires bid_limit_in_bounds { bid_limit ≤ length marks.now }
    requires won_value { every sound_quantity (in_megawatts won) ≡ true }
    requires prices_value { every sound_clearing_price (in_cents prices) ≡ true }
    requires bid_answer_words_in_bounds { bid_answer_words ≤ length answers.old }
    ensures { answers.new
        ≡ with_front (bid_rows marks.now (in_megawatts won) (in_cents prices) (bids_of words.now)) answers.old }
{
    for (k, at) in round_bids::places(words).enumerate() {
        let header = round_bids::header_at(words, at);
        let value = round_bids::bid_value(words, at);
        let path = header.path as usize;
        let bill = charge(prices[path], won[k]);
        let row = [u64::from(marks[k]), value.0, u64::from(won[k].0), bill.0];
        put_row(answers, k, row);
    }
}
