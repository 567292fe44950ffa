// The laminations of admitted bids, each in one word of the lent scratch: claims.
#![tactic(auto)]

ghost use Rattle.std.specs.Prelude.{◌≡◌, true, ◌+◌, ◌*◌, ◌≤◌, ◌<◌, length, get_or};
ghost use Rattle.market.specs.Limits.{path_limit, bid_limit, bid_list_words, header_words, pair_words};
ghost use Rattle.round_bids.specs.BidRefusals.{sound_bid_at};
ghost use Rattle.round_claims.specs.Packed.{more_limit, packed, place_in, claim_in, first_word, next_word};

use market::engine::Engine;
use market::units::{Cents, Megawatts};

// A claim, which is a lamination of an admitted bid: the bid's number, its path, and the pair.
#[derive(Clone, Copy)]
pub struct Claim {
    pub bid: usize,
    pub path: usize,
    pub price: Cents,
    pub quantity: Megawatts,
}

// Fewer claims of a bid than this come after its first one.
const MORE: usize = 32;

// A claim as one word of the scratch; `more` claims of its bid come after it.
fn pack(bid: usize, path: u32, more: u32, place: usize) -> u32
    requires bid_lt_bid_limit { bid < bid_limit }
    requires path_lt_path_limit { path < path_limit }
    requires more_lt_more_limit { more < more_limit }
    requires place_lt_bid_list_words { place < bid_list_words }
    ensures { result ≡ packed bid path more place }
{
    let of = (bid * Engine::PATHS + (path as usize)) * MORE + (more as usize);
    (of * Engine::BID_LIST_WORDS + place) as u32
}

// The place, in the bid list, of the pair of the claim in a word of the scratch.
pub fn place_in(word: u32) -> usize
    ensures { result ≡ place_in word }
{
    (word as usize) % Engine::BID_LIST_WORDS
}

// The claim in a word of the scratch.
pub fn claim_in(words: &[u32], word: u32) -> Claim
    requires { place_in word + pair_words ≤ length words.now }
    ensures bid { result.bid ≡ (claim_in words.now word).bid }
    ensures path { result.path ≡ (claim_in words.now word).path }
    ensures price { result.price.0 ≡ (claim_in words.now word).price }
    ensures quantity { result.quantity.0 ≡ (claim_in words.now word).quantity }
    ensures within { result.path < path_limit }
{
    let of = (word as usize) / Engine::BID_LIST_WORDS / MORE;
    let pair = round_bids::lamination_at(words, place_in(word));
    Claim {
        bid: of / Engine::PATHS,
        path: of % Engine::PATHS,
        price: pair.price,
        quantity: pair.quantity,
    }
}

// The word of the first claim of the bid that begins at `at`, 0 if the bid is not admitted.
pub fn first_word(words: &[u32], marks: &[u32], bid: usize, at: usize) -> u32
    requires words_len_bound { length words.now ≤ bid_list_words }
    requires bid_limit_in_bounds { bid_limit ≤ length marks.now }
    requires pair_words_bound { bid * (header_words + pair_words) ≤ at }
    requires at_value { sound_bid_at path_limit words.now at ≡ true }
    ensures { result ≡ first_word words.now bid at (get_or marks.now bid 0) }
{
    if marks[bid] == Engine::ADMITTED {
        let header = round_bids::header_at(words, at);
        return pack(
            bid,
            header.path,
            header.count - 1,
            at + Engine::HEADER_WORDS,
        );
    }
    0
}

// The word of the claim after the one in a word, 0 after the last claim of its bid.
pub fn next_word(word: u32) -> u32
    ensures { result ≡ next_word word }
{
    let more = (word as usize) / Engine::BID_LIST_WORDS % MORE;
    if more == 0 {
        return 0;
    }
    word - (Engine::BID_LIST_WORDS as u32) + (Engine::PAIR_WORDS as u32)
}
