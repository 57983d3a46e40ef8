// A test program: a letter for each of some starts and replies. `stdout` comes from the minimax of the comparison (oracle/drive/src/region.rs), never from here.
#![tactic(auto)]

use reach_avoid::{OutOfRange, StartOutcome};
use std::io;
use std::io::Print;

// The first choice as 0 to 4, H home, X held off, O outside.
fn start(angle: i64, rate: i64) -> u8 {
    match reach_avoid::outcome(angle, rate) {
        Ok(StartOutcome::Home) => b'H',
        Ok(StartOutcome::HeldOff) => b'X',
        Ok(StartOutcome::Forced(_, -2)) => b'0',
        Ok(StartOutcome::Forced(_, -1)) => b'1',
        Ok(StartOutcome::Forced(_, 0)) => b'2',
        Ok(StartOutcome::Forced(_, 1)) => b'3',
        Ok(StartOutcome::Forced(_, _)) => b'4',
        Err(OutOfRange) => b'O',
    }
}

// The reply as a to c, - none, O outside.
fn reply(angle: i64, rate: i64, left: usize, choice: i64) -> u8 {
    match reach_avoid::reply(angle, rate, left, choice) {
        Ok(None) => b'-',
        Ok(Some(-1)) => b'a',
        Ok(Some(0)) => b'b',
        Ok(Some(_)) => b'c',
        Err(OutOfRange) => b'O',
    }
}

fn main(rt: HostRuntime) -> io::Result<()> {
    let starts = [
        start(64, 0),
        start(-64, 0),
        start(36, 8),
        start(5, 0),
        start(0, 3),
        start(10, -3),
        start(0, 0),
        start(4, -2),
        start(64, 8),
        start(65, 0),
        start(0, -9),
        b'\n',
    ];
    rt.stdout().write_all(&starts)?;
    let replies = [
        reply(64, 0, 16, -2),
        reply(64, 0, 17, -2),
        reply(64, 0, 17, -1),
        reply(64, 8, 64, -2),
        reply(64, 8, 64, 2),
        reply(0, 0, 5, 0),
        reply(10, -3, 3, 1),
        reply(10, -3, 4, -2),
        reply(0, 0, 0, 0),
        reply(5, 0, 65, 0),
        reply(5, 0, 1, 3),
        reply(-64, 0, 16, 2),
        reply(36, 8, 24, -2),
        reply(20, 3, 5, 0),
        b'\n',
    ];
    rt.stdout().write_all(&replies)
}
