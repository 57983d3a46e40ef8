// What every program reads: standard input into a buffer of its own, and the words behind its name. No function allocates.
#![tactic(auto)]

ghost use Rattle.std.specs.Prelude.{◌≡◌, ◌≤◌, length, take};
ghost use Rattle.std.specs.Io.{ReadsAtMost};

use std::env::{Env, FillError};
use std::io;
use std::io::Read;

// Reads standard input until the buffer is full or the input ends, and answers how many bytes it put at the buffer's start.
// A `for` would be no plainer: each turn goes on by as many bytes as were read.
pub fn read_full(rt: &HostRuntime, buf: &mut [u8]) -> io::Result<usize>
    ensures { ReadsAtMost result buf.new }
{
    let mut input = rt.stdin();
    let mut done = 0;
    while done < buf.len() {
        let n = input.read(&mut buf[done..])?;
        if n == 0 {
            break;
        }
        done += n;
    }
    Ok(done)
}

// Whether the program has an argument number k.
fn has_arg(rt: &HostRuntime, k: usize) -> bool {
    let mut byte = [0u8; 1];
    match rt.arg(k, &mut byte) {
        Ok(_) | Err(FillError::TooLong) => true,
        Err(FillError::NotPresent) => false,
    }
}

// How many arguments the program has. The first of them, number 0, is its own name.
pub fn arg_count(rt: &HostRuntime) -> usize {
    for k in 0..usize::MAX {
        if !has_arg(rt, k) {
            return k;
        }
    }
    usize::MAX
}

// Puts argument number k at the buffer's start and answers its length: 0 where there is none, or where it is longer than the buffer.
pub fn arg(rt: &HostRuntime, k: usize, buf: &mut [u8]) -> usize
    ensures within { result ≤ length buf.new }
    ensures taken { result ≡ length (take result buf.new) }
{
    match rt.arg(k, buf) {
        Ok(n) => n,
        Err(_) => 0,
    }
}
