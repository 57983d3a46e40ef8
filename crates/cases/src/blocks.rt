// The run of a program over its input: blocks of 65,536 bytes, 64 at most.
use super::tally;
use super::tally::Tally;
use program_io::read_full;
use std::io;

const BLOCK_BYTES: usize = 65536;

const MOST_BLOCKS: usize = 64;

// Every case of a block: no more than it has bytes. Behind the block's end there is none, and no step is made.
fn block_run<F: Fn(&[u8], Tally) -> Tally>(s: &[u8], start: Tally, step: &F) -> Tally
    requires { F.IsAlwaysCallable step.now }
{
    let mut t = start;
    for _ in 0..BLOCK_BYTES {
        if t.at >= s.len() {
            break;
        }
        t = step(s, t);
    }
    t
}

// Runs the cases of the input, and prints what they come to. A step runs the case at the tally's place in a block, if there is one.
pub fn run<F: Fn(&[u8], Tally) -> Tally>(rt: &HostRuntime, step: F) -> io::Result<()>
    requires { F.IsAlwaysCallable step }
{
    let mut t = tally::none();
    for _ in 0..MOST_BLOCKS {
        let mut space = [0u8; BLOCK_BYTES];
        let n = read_full(rt, &mut space)?;
        t = block_run(&space[..n], t.from(0), &step);
    }
    t.print(rt)
}
