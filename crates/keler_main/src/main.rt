// Writes every line of the KELER set into marked bytes, then lines that are refused, and shows the result and all the
// bytes of each. tools/keler_vectors.py writes what it must show.
#![tactic(auto)]

use keler::{KelerSet, keler_line};
use std::io;

// The set of depository 1, with the days of document 01's marked questions.
const SET: KelerSet = KelerSet {
    csd: 1,
    day: 20170205,
    first: 20170206,
    last: 20991231,
};

// A line of a set: its length or the refusal's number, and all the bytes.
fn show(rt: &impl Print, number: u32, set: KelerSet, space: &mut [u8]) -> io::Result<()> {
    space.fill(b'#');
    match keler_line(number, set, space) {
        Ok(n) => print!(rt; "{n} ")?,
        Err(refusal) => {
            let n = u8::from(refusal);
            print!(rt; "{n} ")?;
        }
    }
    rt.write_all(space)?;
    println!(rt)
}

fn show_set(rt: &impl Print, space: &mut [u8]) -> io::Result<()> {
    for number in 1..56 {
        show(rt, number, SET, space)?;
    }
    Ok(())
}

// 79 bytes are refused, 80 are enough.
fn show_sizes(rt: &impl Print) -> io::Result<()> {
    let mut short = [0u8; 79];
    show(rt, 1, SET, &mut short)?;
    let mut enough = [0u8; 80];
    show(rt, 55, KelerSet { csd: 8, ..SET }, &mut enough)
}

fn main(rt: HostRuntime) -> io::Result<()> {
    let mut space = [0u8; 82];
    show_set(&rt, &mut space)?;
    show(&rt, 0, SET, &mut space)?;
    show(&rt, 56, SET, &mut space)?;
    show(&rt, 1, KelerSet { csd: 9, ..SET }, &mut space)?;
    let no_day = KelerSet {
        first: 20170229,
        ..SET
    };
    show(&rt, 1, no_day, &mut space)?;
    let early = KelerSet {
        day: 20170206,
        ..SET
    };
    show(&rt, 1, early, &mut space)?;
    show(&rt, 1, KelerSet { csd: 9, ..early }, &mut space)?;
    show_sizes(&rt)
}
