// The tests of open that go over a list.
ghost use Rattle.std.specs.Prelude.{◌≡◌, ◌≤◌, length, take};
ghost use Rattle.market.specs.Sound.{sound_quantity};
ghost use Rattle.market.specs.Books.{every, no_value};

use market::book::Bidder;
use market::engine::Engine;

// Whether every bidder's value is 0.
pub fn no_values(bidders: [Bidder; Engine::BIDDERS]) -> bool
    ensures { result ≡ every no_value bidders }
{
    bidders.iter().all(|bidder| book_parts::no_value(*bidder))
}

// Whether each of the first `count` quantities is within the limit.
pub fn all_sound(quantities: &[u32], count: usize) -> bool
    requires { count ≤ length quantities.now }
    ensures { result ≡ every sound_quantity (take count quantities.now) }
{
    quantities[..count]
        .iter()
        .all(|&quantity| quantity <= Engine::QUANTITY_LIMIT)
}
