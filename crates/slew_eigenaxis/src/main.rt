// Plans the problem whose text stands on standard input about one axis (crates/programs/src/axis_plans.rt).
#![tactic(auto)]

use std::io;

fn main(rt: HostRuntime) -> io::Result<()> {
    programs::axis_plans::run(&rt)
}
