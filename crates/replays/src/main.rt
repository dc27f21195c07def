// Replays whole inputs of `decide`, from 01.txt on until one is missing, and writes what it answers to each.
#![tactic(auto)]

use std::fs::File;
use std::rt::Files;
use std::{io, str};
use streams::deciding::decide;

// Replays the input with this number. An error says that there is none. The name of its file is made without a heap, of which there may be
// none.
fn replay<R: Files + Print + Eprint>(rt: &R, number: u8) -> io::Result<()> {
    let tens = b'0' + number / 10 % 10;
    let ones = b'0' + number % 10;
    let name = [tens, ones, b'.', b't', b'x', b't'];
    let mut file = File::open(rt, str::from_utf8(&name).unwrap())?;
    let _ = println!(rt; "= {number:02}");
    decide(rt, &mut file, &mut io::writer(rt));
    Ok(())
}

fn main(rt: HostRuntime) {
    for number in 1..100 {
        if replay(&rt, number).is_err() {
            break;
        }
    }
}
