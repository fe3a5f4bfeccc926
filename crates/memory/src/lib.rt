// The types that a kept instruction remembers, as 13 bytes: the bit of type t is bit t % 8 of the byte at t / 8.
#![tactic(auto)]

ghost use Rattle.std.specs.Prelude.{◌≡◌};
ghost use Rattle.tables.specs.Keyed.{marked};
ghost use Rattle.memory.specs.Remembered.{bit_of, spare_clear, type_bits, with_types};

use marks::{Eight, blank, is_flagged, is_marked, store, store_flag};

// The type numbers, 1 to 99, are below this one.
const TYPE_NUMBERS: u8 = 100;

// Whether the bytes have the bit of a number; none has it from 104 on.
pub fn is_remembered(m: [u8; 13], n: u8) -> bool
    ensures { result ≡ bit_of m n }
{
    is_flagged::<Eight>(&m, usize::from(n))
}

// No bit is on that is no type's. All five are read, by `&`: each read is a call, and the proof takes them together.
pub fn spare_clear(m: [u8; 13]) -> bool
    ensures { result ≡ spare_clear m }
{
    !is_remembered(m, 0)
        & !is_remembered(m, 100)
        & !is_remembered(m, 101)
        & !is_remembered(m, 102)
        & !is_remembered(m, 103)
}

// The loops below are over numbers, by which bits and marks are asked: `from_fn` and `enumerate` would give a usize to
// be turned into a byte.

// Marks by type number: 1 where the bit is on, 0 elsewhere.
pub fn marks_of(m: [u8; 13]) -> [u8; TYPE_NUMBERS as usize]
    ensures { marked result ≡ type_bits m }
{
    let mut marks: [u8; TYPE_NUMBERS as usize] = blank();
    for n in 0..TYPE_NUMBERS {
        if is_remembered(m, n) {
            store(&mut marks, usize::from(n), 1);
        }
    }
    marks
}

// The bytes with the bits of the marked numbers that a type may have, 1 to 99.
pub fn with_types(m: [u8; 13], marks: [u8; TYPE_NUMBERS as usize]) -> [u8; 13]
    ensures { result ≡ with_types m (marked marks) }
{
    let mut r = m;
    for n in 1..TYPE_NUMBERS {
        let k = usize::from(n);
        if is_marked(&marks, k) {
            store_flag::<Eight>(&mut r, k);
        }
    }
    r
}
