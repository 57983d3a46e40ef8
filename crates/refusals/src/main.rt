// Tests the programs on what they refuse: `slew` gets the problem on standard input, and `slew_samples` what is left of it, which is nothing. Then the dense samples of a half turn
// about one axis, gently: the search has no seed for it.
#![tactic(auto)]

use eigenaxis_seed::Shape;
use mosaic::ways::Way;
use programs::dense_samples::Wanted;
use std::io;

fn main(rt: HostRuntime) -> io::Result<()> {
    programs::plans::run(&rt)?;
    programs::dense_samples::run(&rt)?;
    let gently = Wanted {
        board: false,
        way: Way::Eigenaxis(Shape::Gentle),
        end: 0,
    };
    programs::dense_samples::print_text(
        &rt,
        b"(problem\n (q0 3FF 0 0 0)\n (qf 0 0 0 3FF)\n (inertia 4024 0 0 0 4028 0 0 0 402)\n (limit 3F2 3F2 3F2)\n (slew none)\n (weights 3FF 0 0 0 0 0)\n (tolerance 3EB 3EB)\n (momenta)\n (actuators))\n",
        17,
        gently,
    )
}
