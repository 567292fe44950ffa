// The journal program: a journal from standard input; its replies, then the state, to standard output.
#![tactic(auto)]

use std::io;

fn main(rt: HostRuntime) -> io::Result<()> {
    journal_program::run_input(&rt)
}
