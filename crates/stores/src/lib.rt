// Storing of a record by value at a place of the book.
// Written by tools/places.py: change that, then run tools/generate.
#![tactic(auto)]

ghost use Rattle.std.specs.Prelude.{◌≡◌, ℕ, ◌+◌, ◌*◌, ◌<◌, ◌≤◌, length, List};
ghost use Rattle.tables.specs.Bytes.{bytes_of, puts};
ghost use Rattle.places.specs.Layout.{type_numbers, put_type, rule_numbers, put_rule, row_numbers, put_row, period_numbers, put_period, instruction_numbers, put_instruction};
ghost use Rattle.stores.specs.Numbers.{bytes, all_bytes};
ghost use Rattle.stores.specs.Stores.{type_stores, rule_stores, row_stores, period_stores, instruction_stores};

use Number::{Four, One, Three, Two};
use places::{Kept, Period, Place, RestrictionType, Row, Rule, address};

// A record that is stored as its numbers, one after the other.
pub trait Store: Place {
    // The numbers, and what a record stored at place i of a book leaves.
    ghost shown: { Self → List ℕ };

    ghost put: { List ℕ → ℕ → Self → List ℕ };

    // Stores the numbers from an address on.
    fn write(self, b: &mut [u8], start: u32)
        ensures { b.new ≡ puts b.old start 0 (bytes_of Self.widths (shown self)) };

    ghost stores: { (b : List ℕ) (i : ℕ) (r : Self) → put b i r ≡ puts b (Self.START + i * Self.WIDTH) 0 (bytes_of Self.widths (shown r)) };
}

// Stores a record at place i.
pub fn put<P: Store>(b: &mut [u8], i: u16, r: P)
    ensures { b.new ≡ P.put b.old i r }
{
    r.write(b, address::<P>(i));
}

// A number, by how many bytes it is stored in.
#[derive(Clone, Copy)]
enum Number {
    One(u32),
    Two(u32),
    Three(u32),
    Four(u32),
}

// Writes bytes from an address on, and nothing past the end. Answers the address behind them.
fn put_bytes(b: &mut [u8], at: usize, bytes: &[u8]) -> usize
    requires { at + length bytes.now < 18446744073709551616 }
    ensures { (b.new ≡ puts b.old at 0 bytes.now) × (result ≡ at + length bytes.now) }
{
    for (k, &v) in bytes.iter().enumerate() {
        if at + k < b.len() {
            b[at + k] = v;
        }
    }
    at + bytes.len()
}

// Writes a number, lowest byte first.
fn put_number(b: &mut [u8], at: usize, n: Number) -> usize
    requires { at + 4 < 18446744073709551616 }
    ensures { (b.new ≡ puts b.old at 0 (bytes n)) × (result ≡ at + length (bytes n)) }
{
    let (v, size) = match n {
        One(v) => (v, 1),
        Two(v) => (v, 2),
        Three(v) => (v, 3),
        Four(v) => (v, 4),
    };
    put_bytes(b, at, &v.to_le_bytes()[..size])
}

// Writes the numbers of a place, one behind the other.
fn put_numbers(b: &mut [u8], start: u32, numbers: &[Number])
    requires { length numbers.now ≤ 14 }
    ensures { b.new ≡ puts b.old start 0 (all_bytes numbers.now) }
{
    let mut at = start as usize;
    for &n in numbers {
        at = put_number(b, at, n);
    }
}

impl Store for RestrictionType {
    ghost shown = { type_numbers };

    ghost put = { put_type };

    ghost stores = { type_stores };

    fn write(self, b: &mut [u8], start: u32) {
        put_numbers(
            b,
            start,
            &[
                One(u32::from(self.csd)),
                One(u32::from(self.number)),
                One(u32::from(self.object)),
                One(u32::from(self.processing)),
                Four(self.first),
                Four(self.last),
            ],
        );
    }
}

impl Store for Rule {
    ghost shown = { rule_numbers };

    ghost put = { put_rule };

    ghost stores = { rule_stores };

    fn write(self, b: &mut [u8], start: u32) {
        put_numbers(
            b,
            start,
            &[
                One(u32::from(self.csd)),
                One(u32::from(self.number)),
                One(u32::from(self.object)),
                One(u32::from(self.sequence)),
                One(u32::from(self.sign)),
                Two(self.criteria),
                Four(self.first),
                Four(self.last),
            ],
        );
    }
}

impl Store for Row {
    ghost shown = { row_numbers };

    ghost put = { put_row };

    ghost stores = { row_stores };

    fn write(self, b: &mut [u8], start: u32) {
        put_numbers(
            b,
            start,
            &[
                One(u32::from(self.csd)),
                One(u32::from(self.number)),
                One(u32::from(self.object)),
                One(u32::from(self.sequence)),
                One(self.values[0]),
                One(self.values[1]),
                One(self.values[2]),
                Four(self.values[3]),
                Three(self.values[4]),
                Three(self.values[5]),
                Two(self.values[6]),
                Two(self.values[7]),
                Two(self.values[8]),
                Three(self.values[9]),
            ],
        );
    }
}

impl Store for Period {
    ghost shown = { period_numbers };

    ghost put = { put_period };

    ghost stores = { period_stores };

    fn write(self, b: &mut [u8], start: u32) {
        put_numbers(
            b,
            start,
            &[
                One(u32::from(self.csd)),
                One(u32::from(self.kind)),
                Three(self.number),
                Two(self.code),
                Four(self.first),
                Four(self.last),
            ],
        );
    }
}

impl Store for Kept {
    ghost shown = { instruction_numbers };

    ghost put = { put_instruction };

    ghost stores = { instruction_stores };

    fn write(self, b: &mut [u8], start: u32) {
        put_numbers(
            b,
            start,
            &[
                One(u32::from(self.csd)),
                Two(self.reference),
                One(u32::from(self.object)),
                One(self.role),
                One(self.movement),
                One(self.payment),
                Four(self.transaction),
                Three(self.currency),
                Three(self.party),
                Three(self.account),
                Three(self.security),
                Four(self.validating),
                Four(self.holding),
            ],
        );
        put_bytes(b, start as usize + 31, &self.remembered);
    }
}
