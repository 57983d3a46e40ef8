// Tests `slew_mosaic`. On standard input stands a mosaic whose third leg is refused, and the arguments ask for legs about one axis, gently. Then by the search: a mosaic whose
// second leg is refused, an empty text, and one with a single tile.
#![tactic(auto)]

use mosaic::ways::Way;
use std::io;

fn main(rt: HostRuntime) -> io::Result<()> {
    programs::mosaics::run(&rt)?;
    programs::mosaics::print_mosaic(
        &rt,
        b"(mosaic\n(problem\n (q0 3FF 0 0 0)\n (qf 3FE6A09E667F3BCD 0 0 3FE6A09E667F3BCC)\n (inertia 4024 0 0 0 4028 0 0 0 402)\n (limit 3FE 3FE 3FE)\n (slew none)\n (weights 3FF 0 0 0 0 0)\n (tolerance 3EB 3EB)\n (momenta)\n (actuators))\n (tile 3FF 0 0 0)\n (tile 3FE6A09E667F3BCD 0 0 3FE6A09E667F3BCC)\n (tile 3FE6A09E667F3BCD 0 0 3FE6A09E667F3BCC)\n)\n",
        Way::Search,
    )?;
    programs::mosaics::print_mosaic(&rt, b"", Way::Search)?;
    programs::mosaics::print_mosaic(
        &rt,
        b"(mosaic\n(problem\n (q0 3FF 0 0 0)\n (qf 3FF 0 0 0)\n (inertia 3FF 0 0 0 3FF 0 0 0 3FF)\n (limit 3FF 3FF 3FF)\n (slew none)\n (weights 3FF 0 0 0 0 0)\n (tolerance 3EB 3EB)\n (momenta)\n (actuators))\n (tile 3FF 0 0 0)\n)\n",
        Way::Search,
    )
}
