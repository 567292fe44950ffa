// A pool shared by weights: whole cents first, then the cents that are left over, by remainder.
// Also the total of a column, and the weights of a pool.
#![tactic(auto)]

ghost use Rattle.std.specs.Prelude.{◌≡◌, map, ◌+◌, ◌≤◌, ◌<◌};
ghost use Rattle.pool_sharing.specs.Sharing.{total, weight_of, eligible, floor_of, remainder_of, largest, hand_out, pool_shares};
ghost use Rattle.market.specs.Books.{cents, in_cents};
ghost use Rattle.market.specs.Limits.{bidder_limit, pool_limit, column_limit};

use market::engine::Engine;
use market::units::Cents;

// The sum of a column.
pub fn column_total(column: [u32; Engine::BIDDERS]) -> u64
    ensures { result ≡ total column }
{
    column.iter().map(|&number| u64::from(number)).sum()
}

fn weight_of(charge: u32, energy: u32) -> u32
    ensures { result ≡ weight_of charge energy }
{
    if charge > 0 { energy } else { 0 }
}

// The weights of a pool: the energy of each participant with a charge above 0.
pub fn eligible_energy(
    charges: [u32; Engine::BIDDERS],
    energy: [u32; Engine::BIDDERS],
) -> [u32; Engine::BIDDERS]
    ensures { result ≡ eligible charges energy }
{
    std::array::from_fn(|i| weight_of(charges[i], energy[i]))
}

// The sum of shares, which is within the limit of a pool.
fn shares_total(shares: [Cents; Engine::BIDDERS]) -> Cents
    requires { total (in_cents shares) ≤ pool_limit }
    ensures { result ≡ cents (total (in_cents shares)) }
{
    Cents(shares.iter().map(|share| share.0).sum())
}

// The place of the first largest remainder.
fn largest_of(rems: [u64; Engine::BIDDERS]) -> usize
    ensures value { result ≡ largest rems }
    ensures upper_bound { result < bidder_limit }
{
    let mut best = 0;
    for i in 1..Engine::BIDDERS {
        if rems[best] < rems[i] {
            best = i;
        }
    }
    best
}

// The shares after the cents left over went out, the largest remainder first.
fn hand_out(
    left: Cents,
    remainders: [u64; Engine::BIDDERS],
    floors: [Cents; Engine::BIDDERS],
) -> [Cents; Engine::BIDDERS]
    requires { total (in_cents floors) + left.0 ≤ pool_limit }
    ensures { in_cents result ≡ hand_out left.0 remainders (in_cents floors) }
{
    let mut rems = remainders;
    let mut shares = floors;
    for given in 0..left.0 {
        let place = largest_of(rems);
        shares[place].0 += 1;
        rems[place] = 0;
    }
    shares
}

// The share of each participant in a pool. A pool with no weight must be empty.
pub fn share_pool(pool: Cents, weights: [u32; Engine::BIDDERS]) -> [Cents; Engine::BIDDERS]
    requires pool_le_pool_limit { pool.0 ≤ pool_limit }
    requires weights_bound { total weights ≤ column_limit }
    requires weights_nonzero { 0 < pool.0 → 0 < total weights }
    ensures { in_cents result ≡ pool_shares pool.0 weights }
{
    let whole = column_total(weights);
    if whole == 0 {
        return [Cents(0); Engine::BIDDERS];
    }
    let floors = weights.map(|weight| Cents(pool.0 * u64::from(weight) / whole));
    let remainders = weights.map(|weight| pool.0 * u64::from(weight) % whole);
    let given = shares_total(floors);
    hand_out(Cents(pool.0 - given.0), remainders, floors)
}
