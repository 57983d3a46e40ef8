// Answers for a room with moving air. With an angle and a rate it prints the outcome of that start; with the word `reply`, an angle, a rate, the turns left
// and the drive's choice, the draught's reply; with no argument the whole region. A refusal is printed in the answer's place, with a sentence on standard
// error. A program of this language has no exit status: bad arguments show by their sentence, and by nothing on standard output.
#![tactic(auto)]

use arguments::read_requested;
use program_io::{arg, arg_count};
use region_text::words::read_whole;
use region_text::{write_region, write_reply, write_start};
use std::io;
use std::io::Print;

// What the arguments ask for.
enum Asked {
    Region,
    Start(i64, i64),
    Reply(i64, i64, usize, i64),
}

// Argument number k, where it is a number; the first of the program's arguments, number 0, is its own name.
fn number(rt: &HostRuntime, k: usize) -> Option<i64> {
    let mut word = [0u8; 64];
    let length = arg(rt, k, &mut word);
    read_whole(&word[..length])
}

// Argument number k as turns left.
fn turns_left(rt: &HostRuntime, k: usize) -> Option<usize> {
    let mut word = [0u8; 64];
    let length = arg(rt, k, &mut word);
    read_requested(&word[..length])
}

// Whether argument number 1 is the word `reply`.
fn asks_reply(rt: &HostRuntime) -> bool {
    let mut word = [0u8; 64];
    let length = arg(rt, 1, &mut word);
    word[..length] == b"reply"[..]
}

fn read_arguments(rt: &HostRuntime) -> Option<Asked> {
    match arg_count(rt) {
        1 => Some(Asked::Region),
        3 => Some(Asked::Start(number(rt, 1)?, number(rt, 2)?)),
        6 if asks_reply(rt) => Some(Asked::Reply(
            number(rt, 2)?,
            number(rt, 3)?,
            turns_left(rt, 4)?,
            number(rt, 5)?,
        )),
        _ => None,
    }
}

fn say_usage(rt: &HostRuntime) -> io::Result<()> {
    rt.stderr().write_all(
        b"slew_region takes an angle and a rate, or `reply` with an angle, a rate, the turns left and a choice, or nothing: whole numbers in decimal digits.\n",
    )
}

// An answer to standard output, and a sentence to standard error.
fn show(rt: &HostRuntime, answer: &[u8], sentence: &[u8]) -> io::Result<()> {
    rt.stdout().write_all(answer)?;
    rt.stderr().write_all(sentence)
}

fn print_region(rt: &HostRuntime) -> io::Result<()> {
    let mut out = [0u8; 12780];
    let bytes = write_region(&mut out);
    show(rt, &out[..bytes], b"")
}

fn print_start(rt: &HostRuntime, angle: i64, rate: i64) -> io::Result<()> {
    let mut out = [0u8; 100];
    let mut said = [0u8; 212];
    let printed = write_start(angle, rate, &mut out, &mut said);
    show(rt, &out[..printed.bytes], &said[..printed.said])
}

fn print_reply(
    rt: &HostRuntime,
    angle: i64,
    rate: i64,
    left: usize,
    choice: i64,
) -> io::Result<()> {
    let mut out = [0u8; 100];
    let mut said = [0u8; 212];
    let printed = write_reply(angle, rate, left, choice, &mut out, &mut said);
    show(rt, &out[..printed.bytes], &said[..printed.said])
}

fn main(rt: HostRuntime) -> io::Result<()> {
    match read_arguments(&rt) {
        Some(Asked::Region) => print_region(&rt),
        Some(Asked::Start(angle, rate)) => print_start(&rt, angle, rate),
        Some(Asked::Reply(angle, rate, left, choice)) => {
            print_reply(&rt, angle, rate, left, choice)
        }
        None => say_usage(&rt),
    }
}
