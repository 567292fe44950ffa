// The bidders after a round, billed with its charges.
#![tactic(auto)]

ghost use Rattle.std.specs.Prelude.{◌≡◌, true};
ghost use Rattle.market.specs.Sound.{BidderBounds, AllWithin};
ghost use Rattle.market.specs.Books.{every, in_cents};
ghost use Rattle.round_charges.specs.Charges.{within_charges};
ghost use Rattle.round_bidders.specs.Bidders.{billed, billed_all};

use market::book::Bidder;
use market::engine::Engine;
use market::units::Cents;

// A bidder billed with its charges of the round.
fn bill(bidder: Bidder, charges: Cents) -> Bidder
    requires bidder_bounds { BidderBounds bidder }
    requires charges_value { within_charges charges.0 ≡ true }
    ensures { result ≡ billed bidder charges.0 }
{
    let due = bidder.owed.0 + charges.0;
    let moved = bidder.cash.0.min(due);
    let left = due - moved;
    Bidder {
        cash: Cents(bidder.cash.0 - moved),
        applied: Cents(bidder.applied.0 + moved),
        hold: Cents(bidder.letter.0.min(left / 10)),
        owed: Cents(left),
        ..bidder
    }
}

// All bidders billed with their charges, whether they bid or not.
pub fn bill_all(
    bidders: [Bidder; Engine::BIDDERS],
    charges: [Cents; Engine::BIDDERS],
) -> [Bidder; Engine::BIDDERS]
    requires all_within { AllWithin bidders }
    requires charges_value { every within_charges (in_cents charges) ≡ true }
    ensures { result ≡ billed_all bidders (in_cents charges) }
{
    let mut next = bidders;
    for (i, bidder) in bidders.iter().enumerate() {
        next[i] = bill(*bidder, charges[i]);
    }
    next
}
