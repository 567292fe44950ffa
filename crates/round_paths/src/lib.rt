// The paths of a round: its offer of each, what they have sold after it, its answers for them, the stage after it.
#![tactic(auto)]

ghost use Rattle.std.specs.Prelude.{◌≡◌, ◌++◌, ◌∷◌, [], map, ◌+◌, ◌*◌, ◌≤◌, ◌-◌, length, take, drop, replicate, true};
ghost use Rattle.market.specs.Limits.{path_limit, path_answer_size, path_answer_words};
ghost use Rattle.round_paths.specs.PathRows.{path_rows};
ghost use Rattle.market.specs.Books.{every, in_cents, in_megawatts, with_front};
ghost use Rattle.market.specs.Sound.{sound_quantity};
ghost use Rattle.round_paths.specs.PathSales.{with_sold, sold_within, sold_to};
ghost use Rattle.call_open_offers.specs.Offers.{round_offer};
ghost use Rattle.round_paths.specs.Stages.{after_round, stage_after};

use market::book::{Kind, Path, Period, Stage};
use market::engine::Engine;
use market::units::{Cents, Megawatts};

// The answers of the first `count` paths, at the front of the list that is lent for them.
pub fn write_paths(
    offered: [Megawatts; Engine::PATHS],
    sold: [Megawatts; Engine::PATHS],
    prices: [Cents; Engine::PATHS],
    count: usize,
    answers: &mut [u64],
)
    requires count_le_path_limit { count ≤ path_limit }
    requires path_answer_words_in_bounds { path_answer_words ≤ length answers.old }
    ensures { answers.new
        ≡ with_front (path_rows (in_megawatts offered) (in_megawatts sold) (in_cents prices) count) answers.old }
{
    for i in 0..count {
        let row = [u64::from(offered[i].0), u64::from(sold[i].0), prices[i].0];
        round_charges::put_row(answers, i, row);
    }
}

// What a round offers of each of the first `count` paths, and nothing past them.
pub fn offered_by(
    kind: Kind,
    round: u32,
    paths: [Path; Engine::PATHS],
    count: usize,
) -> [Megawatts; Engine::PATHS]
    requires { count ≤ path_limit }
    ensures { in_megawatts result ≡ map (round_offer kind round) (take count paths) ++ replicate (path_limit - count) 0 }
{
    let mut offered = [Megawatts(0); Engine::PATHS];
    for (i, path) in paths[..count].iter().enumerate() {
        offered[i] = call_open_offers::offered_in(kind, round, *path);
    }
    offered
}

fn with_sold(path: Path, more: Megawatts) -> Path
    requires sold_value { sound_quantity path.sold.0 ≡ true }
    requires more_value { sound_quantity more.0 ≡ true }
    ensures { result ≡ with_sold path more.0 }
{
    Path {
        sold: Megawatts(path.sold.0 + more.0),
        ..path
    }
}

// The paths, with what the round sold added to the first `count` of them.
pub fn sold_of(
    paths: [Path; Engine::PATHS],
    sold: [Megawatts; Engine::PATHS],
    count: usize,
) -> [Path; Engine::PATHS]
    requires count_le_path_limit { count ≤ path_limit }
    requires paths_value { every sold_within (take count paths) ≡ true }
    requires sold_value { every sound_quantity (in_megawatts sold) ≡ true }
    ensures { result ≡ sold_to paths (in_megawatts sold) count }
{
    let mut next = paths;
    for (i, path) in paths[..count].iter().enumerate() {
        next[i] = with_sold(*path, sold[i]);
    }
    next
}

// After the first round of a long auction comes its second, and after every other round the stage is idle.
fn after(kind: Kind, round: u32, period: Period) -> Stage
    ensures { result ≡ after_round kind round period }
{
    match (kind, round) {
        (Kind::Long, 1) => Stage::Open {
            kind,
            round: 2,
            period,
        },
        _ => Engine::idle(),
    }
}

// The stage after a round.
pub fn stage_after(stage: Stage) -> Stage
    ensures { result ≡ stage_after stage }
{
    match stage {
        Stage::Idle => Engine::idle(),
        Stage::Open {
            kind,
            round,
            period,
        } => after(kind, round, period),
    }
}
