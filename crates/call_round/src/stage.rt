// What the stage says of a round.
ghost use Rattle.std.specs.Prelude.{◌≡◌};
ghost use Rattle.market.specs.Sound.{kind_of, round_of, period_of};

use market::book::{Kind, Period, Stage};
use market::units::Day;

// The open auction's kind.
pub fn kind_of(stage: Stage) -> Kind
    ensures { result ≡ kind_of stage }
{
    match stage {
        Stage::Idle => Kind::Short,
        Stage::Open {
            kind,
            round: _round,
            period: _period,
        } => kind,
    }
}

// The open auction's next round, 0 where the stage is idle.
pub fn round_of(stage: Stage) -> u32
    ensures { result ≡ round_of stage }
{
    match stage {
        Stage::Idle => 0,
        Stage::Open {
            kind: _kind,
            round,
            period: _period,
        } => round,
    }
}

// The open auction's period.
pub fn period_of(stage: Stage) -> Period
    ensures { result ≡ period_of stage }
{
    match stage {
        Stage::Idle => Period {
            first: Day(0),
            last: Day(0),
        },
        Stage::Open {
            kind: _kind,
            round: _round,
            period,
        } => period,
    }
}
