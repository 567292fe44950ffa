// Where the bids of a list begin, in their order.
ghost use Rattle.std.specs.Prelude.{◌≡◌, length};
ghost use Rattle.round_bids.specs.Bids.{bids_of};
ghost use Rattle.round_bids.specs.BidRefusals.{BidList};

use crate::bid_end;

// The places of the bids from word `at` on.
#[derive(Clone, Copy)]
pub struct BidPlaces<'a> {
    words: &'a [u32],
    at: usize,
}

// The places of the bids of a list.
pub fn places(words: &[u32]) -> BidPlaces<'_>
    requires { BidList words.now }
    ensures words { result.words.now ≡ words.now }
    ensures at { result.at ≡ 0 }
{
    BidPlaces { words, at: 0 }
}

// How many bids a list has.
pub fn bid_count(words: &[u32]) -> usize
    requires { BidList words.now }
    ensures { result ≡ length (bids_of words.now) }
{
    places(words).count()
}

impl<'a> Iterator for BidPlaces<'a> {
    ghost use Rattle.round_bids.specs.Places.{SoundRest, GivesPlace, places_left};

    type Item = usize;

    ghost can_next = { SoundRest };

    ghost next_gives = { GivesPlace };

    ghost remaining = { places_left };

    fn next(&mut self) -> Option<usize> {
        let at = self.at;
        if self.words.len() <= at {
            return None;
        }
        self.at = bid_end(self.words, at);
        Some(at)
    }
}
