// The participants' amounts, written to the list that is lent for them.
#![tactic(auto)]

ghost use Rattle.std.specs.Prelude.{◌≡◌, ◌≤◌, length};
ghost use Rattle.market.specs.Books.{in_cents, with_front};
ghost use Rattle.market.specs.Limits.{bidder_limit};

use market::engine::Engine;
use market::units::Cents;

// Writes the amounts to the front of the lent list; the words after them stay as they are.
pub fn write_amounts(amounts: [Cents; Engine::BIDDERS], lent: &mut [u64])
    requires { bidder_limit ≤ length lent.old }
    ensures { lent.new ≡ with_front (in_cents amounts) lent.old }
{
    lent[..Engine::BIDDERS].copy_from_slice(&amounts.map(|amount| amount.0));
}
