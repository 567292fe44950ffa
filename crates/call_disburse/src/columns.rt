// The columns of charges and energy, read from the lent lists, and the lengths of those lists.
ghost use Rattle.std.specs.Prelude.{◌≡◌, ◌≤◌, length, take};
ghost use Rattle.market.specs.Limits.{bidder_limit};
ghost use Rattle.call_disburse.specs.Disbursement.{pool_lists, all_long_enough, columns_from};

use market::engine::Engine;
use pool_columns::Columns;

// Whether each lent list has a word for each participant.
pub fn all_long_enough(
    provincial: &[u32],
    export: &[u32],
    meters: &[u32],
    interties: &[u32],
    shares: &[u64],
) -> bool
    ensures { result ≡ all_long_enough (pool_lists provincial.now export.now meters.now interties.now shares.now) }
{
    (Engine::BIDDERS <= provincial.len())
        & (Engine::BIDDERS <= export.len())
        & (Engine::BIDDERS <= meters.len())
        & (Engine::BIDDERS <= interties.len())
        & (Engine::BIDDERS <= shares.len())
}

// The first words of a lent list, one for each participant.
fn column_of(words: &[u32]) -> [u32; Engine::BIDDERS]
    requires { bidder_limit ≤ length words.now }
    ensures { result ≡ take bidder_limit words.now }
{
    let mut column = [0; Engine::BIDDERS];
    column.copy_from_slice(&words[..Engine::BIDDERS]);
    column
}

// The columns that the lent lists hold.
pub fn columns_of(provincial: &[u32], export: &[u32], meters: &[u32], interties: &[u32]) -> Columns
    requires bidder_limit_in_bounds { bidder_limit ≤ length provincial.now }
    requires bidder_limit_in_bounds_2 { bidder_limit ≤ length export.now }
    requires bidder_limit_in_bounds_3 { bidder_limit ≤ length meters.now }
    requires bidder_limit_in_bounds_4 { bidder_limit ≤ length interties.now }
    ensures { result ≡ columns_from provincial.now export.now meters.now interties.now }
{
    Columns {
        provincial: column_of(provincial),
        export: column_of(export),
        meters: column_of(meters),
        interties: column_of(interties),
    }
}
