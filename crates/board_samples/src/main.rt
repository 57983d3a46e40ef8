// Tests slew_samples where it is asked for the drive board's whole numbers: the same problem as that program's own test.
#![tactic(auto)]

use std::io;

fn main(rt: HostRuntime) -> io::Result<()> {
    programs::dense_samples::run(&rt)
}
