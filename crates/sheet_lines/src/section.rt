// A line of a section of a sheet, read by what the lines before it ask of it: its bytes, and what it asks of the next line.
ghost use Rattle.std.specs.Prelude.{◌≡◌, ◌+◌, ◌≤◌, ◌<◌, ◌^◌, length, drop};
ghost use Rattle.sheet_lines.specs.Lines.{bidder_used, line_at};

use crate::part::{Part, Step};
use market::engine::Engine;

// How many bidders there are.
const BIDDERS: u64 = Engine::BIDDERS as u64;

// A bidder's line: bidder, cash and letter. The bidder's number must be at least `least`.
fn bidder_used(bytes: &[u8], at: usize, least: u64) -> usize
    requires { at ≤ length bytes.now }
    ensures bidder { result ≡ bidder_used least (drop at bytes.now) }
    ensures fits { at + result ≤ length bytes.now }
{
    let bidder = text_fields::field_at(bytes, at, text_fields::AMOUNT_TOP, text_fields::SPACE);
    if bidder.value < least || BIDDERS <= bidder.value {
        return 0;
    }
    text_fields::numbers_used(bytes, at, text_fields::AMOUNT_TOP, text_fields::NEWLINE, 3)
}

// A line of a section, where `state` is what the lines before it ask of it.
pub fn line_at(part: Part, state: u64, bytes: &[u8], at: usize) -> Step
    requires state_bound { state + 1 < 2 ^ 64 }
    requires at_in_bounds { at ≤ length bytes.now }
    ensures line { result ≡ line_at part state (drop at bytes.now) }
    ensures fits { at + result.used ≤ length bytes.now }
{
    match part {
        Part::Bidders => {
            let bidder = text_fields::field_at(
                bytes,
                at,
                text_fields::AMOUNT_TOP,
                text_fields::SPACE,
            );
            Step {
                used: bidder_used(bytes, at, state),
                next: bidder.value + 1,
            }
        }
        Part::Paths => Step {
            used: crate::path_used(bytes, at, state),
            next: state + 1,
        },
        Part::Bids => Step {
            used: crate::bid_used(bytes, at),
            next: state,
        },
    }
}
