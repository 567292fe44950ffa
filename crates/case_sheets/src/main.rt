// The sheets of standard input, run one after the other, and the output of each, to standard output.
// Each is a case with the word `sheet`: first those that are malformed, then those that are well formed.
#![tactic(auto)]

use case_tools::cases;
use std::io;

const INPUT_BYTES: usize = 524_288;

fn main(rt: HostRuntime) -> io::Result<()> {
    let mut input = [0u8; INPUT_BYTES];
    let count = program_input::read_full(&mut rt.reader(), &mut input)?;
    cases::run_all(
        &rt,
        &input[..count],
        b"sheet",
        |sheet| sheet_program::answer(&rt, sheet),
    )
}
