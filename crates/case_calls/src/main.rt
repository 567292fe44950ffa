// The boundary cases of the calls, each made by itself.
#![tactic(auto)]

mod entries;
mod money;
mod payouts;
mod pools;

use std::io;

fn main(rt: HostRuntime) -> io::Result<()> {
    money::cases(&rt)?;
    entries::cases(&rt)?;
    pools::cases(&rt)?;
    payouts::cases(&rt)
}
