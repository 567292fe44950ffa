// From the bytes of a sheet to the bytes of its output (rules 14.6 to 14.11).
#![tactic(auto)]

mod sheet;

ghost use Rattle.std.specs.Prelude.{◌≡◌};
ghost use Rattle.sheet_output.specs.Output.{answer_to, buffer_after};

use award_sheet::refusals;
use market::answer::Refusal;
use market::engine::Engine;
use sheet_form::form;
use sheet_form::form::FaultyLine;

// Writes the output of a sheet to the front of the buffer lent: the award sheet, or the one line that takes its place. Returns the
// number of bytes written, or a refusal of the calling program.
pub fn output(bytes: &[u8], out: &mut [u8]) -> Result<usize, Refusal>
    ensures answer { result ≡ answer_to bytes.now out.old }
    ensures buffer { out.new ≡ buffer_after bytes.now out.old }
{
    if out.len() < Engine::AWARD_SHEET_BYTES {
        return Err(Refusal::ShortBuffer);
    }
    let count = match form::form_of(bytes) {
        Ok(found) => sheet::run(bytes, found, out),
        Err(FaultyLine(line)) => refusals::faulty(out, line),
    };
    Ok(count)
}
