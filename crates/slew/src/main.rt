// Plans the problem whose text stands on standard input (crates/programs/src/plans.rt).
#![tactic(auto)]

use std::io;

fn main(rt: HostRuntime) -> io::Result<()> {
    programs::plans::run(&rt)
}
