// The output of a sheet, on standard output.
#![tactic(auto)]

use market::engine::Engine;
use std::io;

// The output is written whole, unless a write fails.
pub fn answer(rt: &impl Print, sheet: &[u8]) -> io::Result<()> {
    let mut out = [0u8; Engine::AWARD_SHEET_BYTES];
    if let Ok(count) = sheet_output::output(sheet, &mut out) {
        if count <= out.len() {
            rt.write_all(&out[..count])?;
        }
    }
    Ok(())
}
