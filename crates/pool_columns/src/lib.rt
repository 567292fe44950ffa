// The two pools of a total, each participant's share in both, and what is refused of the columns.
#![tactic(auto)]

ghost use Rattle.std.specs.Prelude.{◌≡◌, true, ◌≤◌, ◌<◌};
ghost use Rattle.market.specs.Answers.{no_refusal, first_of};
ghost use Rattle.market.specs.Books.{cents, in_cents};
ghost use Rattle.market.specs.Limits.{pool_limit};
ghost use Rattle.pool_sharing.specs.Sharing.{total};
ghost use Rattle.pool_columns.specs.Pools.{all_charges, provincial_pool, provincial_weights, export_weights};
ghost use Rattle.pool_columns.specs.Pools.{together, shares_of, columns_within, unshared, column_refusals};

use market::answer::Refusal;
use market::engine::Engine;
use market::units::Cents;

// Each participant's charges, in whole dollars, and energy, in whole MWh.
#[derive(Clone, Copy)]
pub struct Columns {
    pub provincial: [u32; Engine::BIDDERS],
    pub export: [u32; Engine::BIDDERS],
    pub meters: [u32; Engine::BIDDERS],
    pub interties: [u32; Engine::BIDDERS],
}

// Whether each column's total is within the limit.
fn columns_within(columns: Columns) -> bool
    ensures { result ≡ columns_within columns }
{
    pool_sharing::column_total(columns.provincial) <= Engine::COLUMN_LIMIT
        && pool_sharing::column_total(columns.export) <= Engine::COLUMN_LIMIT
        && pool_sharing::column_total(columns.meters) <= Engine::COLUMN_LIMIT
        && pool_sharing::column_total(columns.interties) <= Engine::COLUMN_LIMIT
}

// The charges of both sorts together.
fn all_charges(columns: Columns) -> u64
    requires { columns_within columns ≡ true }
    ensures { result ≡ all_charges columns }
{
    pool_sharing::column_total(columns.provincial) + pool_sharing::column_total(columns.export)
}

// The provincial pool of a total.
fn provincial_pool(total: Cents, columns: Columns) -> Cents
    requires total_le_pool_limit { total.0 ≤ pool_limit }
    requires columns_value { columns_within columns ≡ true }
    requires columns_nonzero { 0 < all_charges columns }
    ensures { result ≡ cents (provincial_pool total.0 columns) }
{
    Cents(total.0 * pool_sharing::column_total(columns.provincial) / all_charges(columns))
}

// The energy at meters of those with a provincial charge.
fn provincial_weights(columns: Columns) -> [u32; Engine::BIDDERS]
    ensures { result ≡ provincial_weights columns }
{
    pool_sharing::eligible_energy(columns.provincial, columns.meters)
}

// The energy at interties of those with an export charge.
fn export_weights(columns: Columns) -> [u32; Engine::BIDDERS]
    ensures { result ≡ export_weights columns }
{
    pool_sharing::eligible_energy(columns.export, columns.interties)
}

// Whether a pool has cents and nobody to get them.
fn is_unshared(pool: Cents, weights: [u32; Engine::BIDDERS]) -> bool
    ensures { result ≡ unshared pool.0 weights }
{
    0 < pool.0 && pool_sharing::column_total(weights) == 0
}

// Whether the columns are refused.
pub fn check(total: Cents, columns: Columns) -> Result<(), Refusal>
    requires { total.0 ≤ pool_limit }
    ensures { result ≡ first_of (column_refusals total.0 columns) }
{
    if !columns_within(columns) {
        return Err(Refusal::Columns);
    }
    if all_charges(columns) == 0 {
        return Err(Refusal::Columns);
    }
    let pool = provincial_pool(total, columns);
    if is_unshared(pool, provincial_weights(columns)) {
        return Err(Refusal::Columns);
    }
    if is_unshared(Cents(total.0 - pool.0), export_weights(columns)) {
        return Err(Refusal::Columns);
    }
    Ok(())
}

// The sum of each participant's cents in two lists.
fn add_shares(
    first: [Cents; Engine::BIDDERS],
    second: [Cents; Engine::BIDDERS],
) -> [Cents; Engine::BIDDERS]
    requires first_bound { total (in_cents first) ≤ pool_limit }
    requires second_bound { total (in_cents second) ≤ pool_limit }
    ensures { in_cents result ≡ together (in_cents first) (in_cents second) }
{
    std::array::from_fn(|i| Cents(first[i].0 + second[i].0))
}

// Each participant's share of a total.
pub fn shares_of(total: Cents, columns: Columns) -> [Cents; Engine::BIDDERS]
    requires total_le_pool_limit { total.0 ≤ pool_limit }
    requires columns_value { first_of (column_refusals total.0 columns) ≡ no_refusal }
    ensures { in_cents result ≡ shares_of total.0 columns }
{
    let pool = provincial_pool(total, columns);
    let provincial = pool_sharing::share_pool(pool, provincial_weights(columns));
    let export = pool_sharing::share_pool(Cents(total.0 - pool.0), export_weights(columns));
    add_shares(provincial, export)
}
