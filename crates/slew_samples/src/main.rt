// Prints the dense samples of the problem whose text stands on standard input (crates/programs/src/dense_samples.rt).
#![tactic(auto)]

use std::io;

fn main(rt: HostRuntime) -> io::Result<()> {
    programs::dense_samples::run(&rt)
}
