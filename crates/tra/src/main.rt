// The program `tra` (rule 14.12): a sheet from standard input, and its output to standard output.
#![tactic(auto)]

use market::engine::Engine;
use std::io;

// One byte more than a sheet may have, so that a longer one is seen to be too long; what follows is left unread.
const INPUT_BYTES: usize = Engine::SHEET_BYTES + 1;

fn main(rt: HostRuntime) -> io::Result<()> {
    let mut input = [0u8; INPUT_BYTES];
    let count = program_input::read_full(&mut rt.reader(), &mut input)?;
    sheet_program::answer(&rt, &input[..count])
}
