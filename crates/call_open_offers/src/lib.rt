// How many MW of a path an auction offers, and how many of them each of its rounds offers.
#![tactic(auto)]

ghost use Rattle.std.specs.Prelude.{◌≡◌, ◌-◌, min};
ghost use Rattle.market.specs.Books.{megawatts};
ghost use Rattle.call_open_offers.specs.Offers.{capability, long_offer, short_offer, auction_offer, long_offered, round_offer};

use market::book::{Kind, Path};
use market::engine::Engine;
use market::units::Megawatts;

// The four quantities that open takes for a path (rule 6.2): base, FUL, A and B.
#[derive(Clone, Copy)]
pub struct Quantities {
    pub base: Megawatts,
    pub upper: Megawatts,
    pub first: Megawatts,
    pub second: Megawatts,
}

// What is left of a quantity when `taken` is taken from it; 0 where that is more than there is.
fn left(whole: Megawatts, taken: Megawatts) -> Megawatts
    ensures { result ≡ megawatts (whole.0 - taken.0) }
{
    Megawatts(whole.0.saturating_sub(taken.0))
}

// The least of FUL, A and B.
fn capability_of(of: Quantities) -> Megawatts
    ensures { result ≡ megawatts (capability of) }
{
    of.upper.min(of.first).min(of.second)
}

fn short_offer(of: Quantities, out: Megawatts) -> Megawatts
    ensures { result ≡ megawatts (short_offer of out.0) }
{
    left(capability_of(of), out)
}

fn long_offer(of: Quantities, out: Megawatts) -> Megawatts
    ensures { result ≡ megawatts (long_offer of out.0) }
{
    let quarter = Megawatts(of.base.0 / Engine::QUARTERS);
    quarter
        .min(capability_of(of))
        .min(left(of.base, out))
        .min(left(of.upper, out))
}

// The offer of a path on which `out` is outstanding.
pub fn offer(kind: Kind, of: Quantities, out: Megawatts) -> Megawatts
    ensures { result ≡ megawatts (auction_offer kind of out.0) }
{
    match kind {
        Kind::Short => short_offer(of, out),
        Kind::Long => long_offer(of, out),
    }
}

fn long_offered(round: u32, path: Path) -> Megawatts
    ensures { result ≡ megawatts (long_offered round path) }
{
    if round == 1 {
        return Megawatts(path.offer.0 / Engine::QUARTERS);
    }
    left(path.offer, path.sold)
}

// What a round offers of a path.
pub fn offered_in(kind: Kind, round: u32, path: Path) -> Megawatts
    ensures { result ≡ megawatts (round_offer kind round path) }
{
    match kind {
        Kind::Short => path.offer,
        Kind::Long => long_offered(round, path),
    }
}
