// Plans the mosaic whose text stands on standard input, leg by leg (crates/programs/src/mosaics.rt).
#![tactic(auto)]

use std::io;

fn main(rt: HostRuntime) -> io::Result<()> {
    programs::mosaics::run(&rt)
}
