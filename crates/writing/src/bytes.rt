// Bytes, texts and numbers.
ghost use Rattle.std.specs.Prelude.{◌+◌, ◌<◌, ◌≤◌, ◌≡◌, [], length, ltb};
ghost use Rattle.meaning.specs.Text.{numeral};
ghost use Rattle.meaning.specs.Printing.{listed};
ghost use Rattle.writing.specs.Written.{space, added, added_all};

use std::marker::Model;

// The longest line has 80 bytes.
pub const SPACE: usize = 80;

// What is written: bytes in a fixed space, and how many they are. What does not fit is left out. Not an ArrayVec, which
// is no Copy.
#[derive(Clone, Copy)]
pub struct Written {
    bytes: [u8; SPACE],
    len: usize,
}

// A clause sees the bytes in front. Zeros are behind them, so these give the fields back.
impl Model for Written {
    ghost use Rattle.std.specs.Prelude.{List, ℕ, length, take};
    ghost use Rattle.tables.specs.Padded.{padded};

    ghost Value = { List ℕ };

    ghost use Rattle.writing.specs.Space.{ZerosBehind, gives_back};

    ghost view = { λ w. take w.len w.bytes };

    ghost invariant = { ZerosBehind };

    ghost inverse = { λ t. record { bytes = padded 80 t; len = length t } };

    ghost inverse_ok = { gives_back };
}

// Whether a byte more fits behind so many.
fn has_room(len: usize) -> bool
    ensures { result ≡ ltb len space }
{
    len < SPACE
}

fn digit(n: u32) -> u8
    requires { n < 10 }
    ensures { result ≡ 48 + n }
{
    b'0' + n as u8
}

impl Written {
    pub fn new() -> Self
        ensures { result ≡ [] }
    {
        Written {
            bytes: [0; SPACE],
            len: 0,
        }
    }

    pub fn as_slice(&self) -> &[u8]
        ensures bytes { result.now ≡ self.now }
        ensures few { length result.now ≤ space }
    {
        &self.bytes[..self.len]
    }

    // One byte more, where there is room.
    pub fn push(&mut self, c: u8)
        ensures { self.new ≡ added self.old c }
    {
        if has_room(self.len) {
            self.bytes[self.len] = c;
            self.len += 1;
        }
    }

    // The bytes of a text more, one by one: of a text that does not fit whole, the front is written.
    pub(crate) fn push_text(&mut self, text: &[u8])
        ensures { self.new ≡ added_all self.old text.now }
    {
        for &c in text {
            self.push(c);
        }
    }

    // The digits of a number more, without leading zeros: those of its tenth, and the last one. Not by `write!`, which
    // says what it wrote only where it gives Ok: where the space is full, the bytes that still fit are promised here.
    pub fn push_number(&mut self, n: u32)
        ensures { self.new ≡ added_all self.old (numeral n) }
    {
        if n >= 10 {
            self.push_number(n / 10);
        }
        self.push(digit(n % 10));
    }

    // Numbers more, each behind a comma.
    pub fn push_numbers(&mut self, numbers: &[u32])
        ensures { self.new ≡ added_all self.old (listed numbers.now) }
    {
        for &n in numbers {
            self.push(b',');
            self.push_number(n);
        }
    }
}
