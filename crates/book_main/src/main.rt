// Empties and fills a book, damages it one byte at a time as the lines of standard input say, and writes for each
// whether it is sound. A line is a table (T types, R rules, M rows, A periods), a place, an offset in it, the byte to
// stand there, each number in four digits, and what that is. Depositories 1 and 3 to 7 hold their whole quotas; 2 holds
// what can be damaged alone, and 8 nothing.
#![tactic(auto)]

use basics::{byte_at, low};
use input::read_full;
use marks::blank;
use places::{Period, Place, RestrictionType, Row, Rule, SIZE};
use std::io;
use stores::put;

// ---- What is written.

// As bytes: what a line says of itself comes as bytes, and `print!` takes text.
fn tell(rt: &impl Print, sound: bool, what: &[u8]) -> io::Result<()> {
    if sound {
        rt.write_all(b"sound: ")?;
    } else {
        rt.write_all(b"not sound: ")?;
    }
    rt.write_all(what)?;
    rt.write_all(b"\n")
}

fn say(rt: &impl Print, b: &[u8], what: &[u8]) -> io::Result<()> {
    tell(rt, soundness::is_sound(b), what)
}

fn empty(rt: &impl Print, b: &mut [u8], what: &[u8]) -> io::Result<()> {
    // 0, or the number of the refusal.
    let n = match book::empty(b) {
        Ok(()) => 0,
        Err(refusal) => u8::from(refusal),
    };
    print!(rt; "{n} ")?;
    say(rt, b, what)
}

// ---- Whole quotas: 16 types, 4 rules of each, 2 rows of each rule; 128 periods, two to a party, one day apart.

fn put_rows(b: &mut [u8], c: u8, i: u8, k: u16) {
    let odd = u32::from(i % 2);
    let values = [0, 0, 0, 0, 0, 0, 101 + odd, 0, 0, 0];
    put(b, k, Row::new(c, i / 8 % 16 + 1, 1, i / 2 % 4 + 1, values));
    put(
        b,
        k,
        Period::new(
            c,
            Period::PARTY,
            u32::from(i / 2) + 1,
            101 + odd,
            20200101 + 10 * odd,
            20200110 + 10 * odd,
        ),
    );
}

// Place k of each table, as far as its quota goes; the depositories take turns.
fn put_own(b: &mut [u8], k: u16) {
    let c = (k % 8) as u8 + 1;
    let i = (k / 8 % 128) as u8;
    if c % 6 == 2 {
        return;
    }
    put_rows(b, c, i, k);
    if i > 63 {
        return;
    }
    put(
        b,
        k,
        Rule::new(
            c,
            i / 4 + 1,
            1,
            i % 4 + 1,
            Rule::POSITIVE,
            64,
            20200229,
            20991231,
        ),
    );
    if i > 15 {
        return;
    }
    put(
        b,
        k,
        RestrictionType::new(c, i + 1, 1, 1, 20200110, 20200120),
    );
}

fn fill(b: &mut [u8]) {
    for k in 0..Row::PLACES {
        put_own(b, k);
    }
}

// ---- Depository 2. A function for each table, since each record has other fields.

fn put_two_types(b: &mut [u8]) {
    let held = RestrictionType::PARTY_HOLD;
    let kept = RestrictionType::VALIDATION_HOLD;
    put(
        b,
        1,
        RestrictionType::new(2, 99, 1, held, 20200110, 20200120),
    );
    put(
        b,
        9,
        RestrictionType::new(2, 1, 1, kept, 20000101, 20991231),
    );
}

fn put_two_rules(b: &mut [u8]) {
    let positive = Rule::POSITIVE;
    let negative = Rule::NEGATIVE;
    put(
        b,
        1,
        Rule::new(2, 1, 1, 77, negative, 4, 20200110, 20200120),
    );
    put(
        b,
        9,
        Rule::new(2, 1, 1, 1, positive, 64, 20200110, 20200120),
    );
    put(
        b,
        17,
        Rule::new(2, 1, 1, 2, positive, 520, 20200110, 20200120),
    );
}

fn put_two_rows(b: &mut [u8]) {
    let code = [0, 0, 0, 0, 0, 0, 9999, 0, 0, 0];
    let corp = u32::from_be_bytes(*b"CORP");
    let euro = u32::from_be_bytes(*b"\0EUR");
    let words = [0, 0, 0, corp, 0, 0, 0, 0, 0, euro];
    let kind = Period::SECURITY;
    put(b, 1, Row::new(2, 1, 1, 1, code));
    put(b, 9, Row::new(2, 1, 1, 2, words));
    put(b, 1, Period::new(2, kind, 999999, 9999, 20200229, 20200229));
}

// ---- Damage.

// Whether the book is sound with the byte at an offset from an address changed, which is changed back.
fn sound_with(b: &mut [u8], at: u32, offset: u32, v: u8) -> bool {
    let i = at as usize + offset as usize;
    if i < b.len() {
        let old = b[i];
        b[i] = v;
        let sound = soundness::is_sound(b);
        b[i] = old;
        return sound;
    }
    soundness::is_sound(b)
}

// Where a place stands in the table of a letter; any letter but T, R and M is taken for A. The letter is matched as it
// stands in the line: it is asked here alone, and an enum would be made of it only to be matched.
fn address(table: u8, place: u16) -> u32 {
    match table {
        b'T' => places::address::<RestrictionType>(place),
        b'R' => places::address::<Rule>(place),
        b'M' => places::address::<Row>(place),
        _ => places::address::<Period>(place),
    }
}

// The decimal number of some digits. `calls` reads its numbers by the same fold: a crate for one expression would be no
// plainer.
fn number(s: &[u8]) -> u32 {
    s.iter().fold(0u32, |value, digit| {
        value
            .saturating_mul(10)
            .saturating_add(u32::from(*digit % 16))
    })
}

fn damaged(rt: &impl Print, b: &mut [u8], line: &[u8]) -> io::Result<()> {
    if line.len() < 17 {
        return Ok(());
    }
    let place = (number(&line[2..6]) % 65536) as u16;
    let at = address(byte_at(line, 0), place);
    let offset = number(&line[7..11]);
    let v = low(number(&line[12..16]));
    tell(rt, sound_with(b, at, offset, v), &line[17..])
}

// What follows the last byte 10 is no line. A line at `answer_calls` of `calls` says why they share no function here.
fn each_line(rt: &impl Print, b: &mut [u8], text: &[u8]) -> io::Result<()> {
    let Some(last) = text.iter().rposition(|byte| *byte == b'\n') else {
        return Ok(());
    };
    for line in text[..last].split(|byte| *byte == b'\n') {
        damaged(rt, b, line)?;
    }
    Ok(())
}

// ---- The run.

fn run(rt: &impl Print, b: &mut [u8], text: &[u8]) -> io::Result<()> {
    empty(rt, b, b"emptied")?;
    fill(b);
    say(rt, b, b"six whole quotas")?;
    put_two_types(b);
    put_two_rules(b);
    put_two_rows(b);
    say(rt, b, b"with records of depository 2")?;
    each_line(rt, b, text)?;
    say(rt, b, b"as before")?;
    empty(rt, b, b"emptied again")
}

fn main(rt: HostRuntime) -> io::Result<()> {
    let mut text: [u8; 65536] = blank();
    let n = read_full(&mut rt.reader(), &mut text)?;
    let mut exact: [u8; SIZE] = blank();
    run(&rt, &mut exact, &text[..n])?;
    let mut short: [u8; SIZE - 1] = blank();
    empty(&rt, &mut short, b"a byte too short")?;
    let mut long: [u8; SIZE + 1] = blank();
    empty(&rt, &mut long, b"a byte too long")
}
