// The bid list as words: what a bid is, its bid value, and where the next bid begins.
#![tactic(auto)]

mod bid_places;

ghost use Rattle.std.specs.Prelude.{◌≡◌, true, ◌+◌, ◌*◌, ◌≤◌, length};
ghost use Rattle.market.specs.Books.{cents};
ghost use Rattle.market.specs.Limits.{lamination_limit, header_words, pair_words};
ghost use Rattle.round_bids.specs.Bids.{header_at, lamination_at, laminations_at, bid_at, bid_end};
ghost use Rattle.round_bids.specs.Bids.{lamination_value, laminations_value, bid_value, lamination_value_limit, bid_value_limit};
ghost use Rattle.round_bids.specs.BidRefusals.{sound_lamination, sound_laminations, above_prices};

pub use crate::bid_places::{BidPlaces, bid_count, places};
use market::engine::Engine;
use market::units::{Cents, Megawatts};

// A pair of a bid: a price in cents per MW, which buys the MW for all days of the period, and the MW bid for at that price.
#[derive(Clone, Copy)]
pub struct Lamination {
    pub price: Cents,
    pub quantity: Megawatts,
}

// The words before a bid's pairs; `count` is the number of pairs.
#[derive(Clone, Copy)]
pub struct Header {
    pub bidder: u32,
    pub path: u32,
    pub stamp: u32,
    pub count: u32,
}

// The header of the bid that begins at word `at`.
pub fn header_at(words: &[u32], at: usize) -> Header
    requires { at + header_words ≤ length words.now }
    ensures { result ≡ header_at words.now at }
{
    Header {
        bidder: words[at],
        path: words[at + 1],
        stamp: words[at + 2],
        count: words[at + 3],
    }
}

// The pair that begins at word `at`.
pub fn lamination_at(words: &[u32], at: usize) -> Lamination
    requires { at + pair_words ≤ length words.now }
    ensures { result ≡ lamination_at words.now at }
{
    Lamination {
        price: Cents(u64::from(words[at])),
        quantity: Megawatts(words[at + 1]),
    }
}

// The number of words of `count` pairs.
pub fn pair_words(count: u32) -> usize
    ensures { result ≡ count * pair_words }
{
    (count as usize) * Engine::PAIR_WORDS
}

// The bid value of a pair.
fn lamination_value(lamination: Lamination) -> Cents
    requires { sound_lamination lamination ≡ true }
    ensures value { result ≡ cents (lamination_value lamination) }
    ensures result_le_lamination_value_limit { result.0 ≤ lamination_value_limit }
{
    Cents(lamination.price.0 * u64::from(lamination.quantity.0))
}

// The bid value of `count` pairs, the first of which begins at word `at`.
fn pairs_value(words: &[u32], at: usize, count: u32) -> Cents
    requires pair_words_in_bounds { at + count * pair_words ≤ length words.now }
    requires count_le_lamination_limit { count ≤ lamination_limit }
    requires count_value { sound_laminations above_prices (laminations_at words.now at count) ≡ true }
    ensures value { result ≡ cents (laminations_value (laminations_at words.now at count)) }
    ensures result_le_bid_value_limit { result.0 ≤ bid_value_limit }
{
    let mut sum = 0;
    for i in 0..count {
        let lamination = lamination_at(words, at + (i as usize) * Engine::PAIR_WORDS);
        sum += lamination_value(lamination).0;
    }
    Cents(sum)
}

// The bid value of the bid that begins at word `at`.
pub fn bid_value(words: &[u32], at: usize) -> Cents
    requires at_in_bounds { bid_end words.now at ≤ length words.now }
    requires at_bound { (header_at words.now at).count ≤ lamination_limit }
    requires at_value { sound_laminations above_prices (bid_at words.now at).laminations ≡ true }
    ensures value { result ≡ cents (bid_value (bid_at words.now at)) }
    ensures result_le_bid_value_limit { result.0 ≤ bid_value_limit }
{
    let header = header_at(words, at);
    pairs_value(words, at + Engine::HEADER_WORDS, header.count)
}

// Where the bid after the one at `at` begins.
pub fn bid_end(words: &[u32], at: usize) -> usize
    requires { bid_end words.now at ≤ length words.now }
    ensures { result ≡ bid_end words.now at }
{
    at + Engine::HEADER_WORDS + pair_words(words[at + 3])
}
