// Which lists of bids a round takes, and the refusal of every other.
#![tactic(auto)]

ghost use Rattle.std.specs.Prelude.{◌≡◌, true, ◌&&◌, ◌+◌, ◌*◌, ◌≤◌, ◌<◌, length};
ghost use Rattle.market.specs.Answers.{first_of};
ghost use Rattle.market.specs.Limits.{path_limit, bidder_limit, pair_words};
ghost use Rattle.round_bids.specs.Bids.{laminations_at, bid_at};
ghost use Rattle.round_bids.specs.BidRefusals.{sound_lamination, sound_laminations, above_prices, sound_header, sound_bid, whole_at, list_refusals};

use market::answer::Refusal;
use market::engine::Engine;
use round_bids::{Header, Lamination};

fn sound_lamination(lamination: Lamination) -> bool
    ensures { result ≡ sound_lamination lamination }
{
    (1..=Engine::PRICE_LIMIT).contains(&lamination.price.0)
        && (1..=Engine::QUANTITY_LIMIT).contains(&lamination.quantity.0)
}

// Whether each of `count` pairs from word `at` on is sound, and its price below the one before it.
fn sound_laminations(words: &[u32], at: usize, count: u32) -> bool
    requires { at + count * pair_words ≤ length words.now }
    ensures { result ≡ sound_laminations above_prices (laminations_at words.now at count) }
{
    let mut before = Engine::PRICE_LIMIT + 1;
    for i in 0..count {
        let lamination = round_bids::lamination_at(words, at + (i as usize) * Engine::PAIR_WORDS);
        if !(sound_lamination(lamination) & (lamination.price.0 < before)) {
            return false;
        }
        before = lamination.price.0;
    }
    true
}

// Whether the fields before the pairs are sound, where the book has `paths` paths.
fn sound_header(header: Header, paths: usize) -> bool
    ensures { result ≡ sound_header paths header }
{
    (header.bidder as usize) < Engine::BIDDERS
        && (header.path as usize) < paths
        && (1..=Engine::LAMINATIONS).contains(&header.count)
}

// Whether the bid at a place is whole and its fields are sound. Its number of pairs is tested before anything is
// worked out from it.
fn sound_bid(words: &[u32], at: usize, paths: usize) -> bool
    requires { at ≤ length words.now }
    ensures { result ≡ (whole_at words.now at && sound_bid paths (bid_at words.now at)) }
{
    let left = words.len() - at;
    if left < Engine::HEADER_WORDS {
        return false;
    }
    let header = round_bids::header_at(words, at);
    if !sound_header(header, paths) {
        return false;
    }
    if left - Engine::HEADER_WORDS < round_bids::pair_words(header.count) {
        return false;
    }
    sound_laminations(words, at + Engine::HEADER_WORDS, header.count)
}

// The number of a bidder and path: each such pair has its own.
fn pair_of(bidder: u32, path: u32) -> usize
    requires { bidder < bidder_limit }
    ensures { result ≡ bidder * path_limit + path }
{
    (bidder as usize) * Engine::PATHS + (path as usize)
}

// Whether a list of bids is refused, where the book has `paths` paths. `seen` has a mark for each bidder and path that has a
// bid so far, and `stamp` is the latest bid's.
pub fn check(words: &[u32], paths: usize) -> Result<(), Refusal>
    requires { paths ≤ path_limit }
    ensures { result ≡ first_of (list_refusals paths words.now) }
{
    let mut seen = [false; Engine::PAIRS];
    let mut stamp = 0;
    let mut at: usize = 0;
    while at < words.len() {
        if !sound_bid(words, at, paths) {
            return Err(Refusal::Bid);
        }
        let header = round_bids::header_at(words, at);
        let pair = pair_of(header.bidder, header.path);
        if seen[pair] {
            return Err(Refusal::SecondBid);
        }
        if header.stamp < stamp {
            return Err(Refusal::Stamp);
        }
        seen[pair] = true;
        stamp = header.stamp;
        at = round_bids::bid_end(words, at);
    }
    Ok(())
}
