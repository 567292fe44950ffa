// The refusals of a round, and registers with little room.
#![tactic(auto)]

mod full;
mod refusals;

use std::io;

fn main(rt: HostRuntime) -> io::Result<()> {
    refusals::cases(&rt)?;
    full::cases(&rt)
}
