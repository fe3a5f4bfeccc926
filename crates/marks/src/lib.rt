// Tables of numbers that are addressed by key: marks, one to an entry, and flags, several to an entry, so that fewer
// bytes are cleared. Past its end a table has neither. They are arrays, since there is no heap for a map.
#![tactic(auto)]

ghost use Rattle.std.specs.Prelude.{ℕ, ◌+◌, ◌*◌, ◌/◌, ◌%◌, ◌<◌, ◌≤◌, ◌≡◌, set, get_or, refl};
ghost use Rattle.std.proofs.lemmas.Bool.{leb-false, leb-true};
ghost use Rattle.tables.specs.Keyed.{marked, Blank};
ghost use Rattle.marks.specs.Flags.{flag, with_flag, flagged};

use basics::byte_at;

// A table without an entry, in a function of its own, so that no proof shows its cells.
pub fn blank<const N: usize>() -> [u8; N]
    ensures { Blank N result }
{
    [0; N]
}

// The key of two numbers, of which the second is below N.
pub fn key<const N: u8>(first: u32, second: u8) -> usize
    ensures { result ≡ first * N + second }
{
    first as usize * usize::from(N) + usize::from(second)
}

pub fn is_marked(t: &[u8], k: usize) -> bool
    ensures { result ≡ marked t.now k }
{
    byte_at(t, k) == 1
}

// Stores a number at a key, and nothing past the end.
pub fn store(t: &mut [u8], k: usize, v: u8)
    ensures { t.new ≡ set t.old k v }
{
    if k < t.len() {
        t[k] = v;
    }
}

// How many flags an entry has: that of the key k is flag k % N of the entry at k / N.
pub trait Flags {
    ghost N: { ℕ };

    const N: usize;

    ghost some: { 0 < N };

    ghost few: { N ≤ 8 };
}

pub struct Four;

impl Flags for Four {
    ghost N = { 4 };

    const N: usize = 4;

    ghost some = { leb-false 4 0 refl };

    ghost few = { leb-true 4 8 refl };
}

pub struct Eight;

impl Flags for Eight {
    ghost N = { 8 };

    const N: usize = 8;

    ghost some = { leb-false 8 0 refl };

    ghost few = { leb-true 8 8 refl };
}

// Whether an entry has the flag of a key.
fn has_flag<F: Flags>(x: u8, k: usize) -> bool
    ensures { result ≡ flag (k % F.N) x }
{
    x >> (k % F::N) & 1 == 1
}

// An entry with the flag of a key.
pub fn with_flag<F: Flags>(x: u8, k: usize) -> u8
    ensures { result ≡ with_flag (k % F.N) x }
{
    x | 1 << (k % F::N)
}

pub fn is_flagged<F: Flags>(t: &[u8], k: usize) -> bool
    ensures { result ≡ flagged F.N t.now k }
{
    has_flag::<F>(byte_at(t, k / F::N), k)
}

// Stores the flag of a key, and nothing past the end.
pub fn store_flag<F: Flags>(t: &mut [u8], k: usize)
    ensures { t.new ≡ set t.old (k / F.N) (with_flag (k % F.N) (get_or t.old (k / F.N) 0)) }
{
    let entry = byte_at(t, k / F::N);
    store(t, k / F::N, with_flag::<F>(entry, k));
}
