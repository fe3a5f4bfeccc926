// The free places at a block's start: all their bytes are 0 (document 01, 'Records').
ghost use Rattle.std.specs.Prelude.{◌≡◌, ◌+◌, ◌*◌, ◌<◌, ◌≤◌};
ghost use Rattle.places.specs.Layout.{book_size};
ghost use Rattle.chains.specs.Sizes.{block_places};
ghost use Rattle.chains.specs.Blocks.{zero_from, FreeFirst, Wide};

use crate::place::Book;
use chains::BLOCK;

// Whether 32 times n bytes from an index on are all 0: four runs of n words each, side by side.
fn runs_zero(book: Book<'_>, from: usize, n: usize) -> bool
    requires { from + block_places * n ≤ book_size }
    ensures { result ≡ zero_from book.entry.bytes.now from (block_places * n) }
{
    let second = from + 8 * n;
    let third = from + 16 * n;
    let fourth = from + 24 * n;
    let mut x: u64 = 0;
    // By index: the four runs go side by side, and a chain would zip four of chunks.
    for j in 0..n {
        let k = 8 * j;
        let low = x | book.eight(from, k) | book.eight(second, k);
        x = low | book.eight(third, k) | book.eight(fourth, k);
    }
    x == 0
}

// The functions below take book, start and width, and no struct of the three: two ask for the room of a block and one
// for that of a place, so it would not say what each asks.

// How many bytes a place has: so many that a word at each end, or two, cover it.
#[derive(Clone, Copy)]
pub struct Width {
    pub bytes: usize,
    pub ghost wide: { Wide bytes },
}

// Whether a place of a width is free: a word at each end, two where it has more than 16 bytes.
fn width_free(book: Book<'_>, at: usize, width: Width) -> bool
    requires { at + width.bytes ≤ book_size }
    ensures { result ≡ zero_from book.entry.bytes.now at width.bytes }
{
    let n = width.bytes;
    let ends = book.eight(at, 0) | book.eight(at, n - 8);
    if n <= 16 {
        return ends == 0;
    }
    ends | book.eight(at, 8) | book.eight(at, n - 16) == 0
}

// How many places at a block's start are free, counted one by one but for the last. Widening is by `as`: with
// `usize::from` the loop was not proved.
fn count_free(book: Book<'_>, from: usize, width: Width) -> u16
    requires { from + block_places * width.bytes ≤ book_size }
    ensures { FreeFirst book.entry.bytes.now from width.bytes result }
{
    for n in 0..BLOCK - 1 {
        let at = from + n as usize * width.bytes;
        if book.one(at, 0) != 0 {
            return n;
        }
        if !width_free(book, at, width) {
            return n;
        }
    }
    BLOCK - 1
}

// The same, at once where the first place is used, and all of them where they are free.
pub(crate) fn free_first(book: Book<'_>, from: usize, width: Width) -> u16
    requires { from + block_places * width.bytes ≤ book_size }
    ensures { FreeFirst book.entry.bytes.now from width.bytes result }
{
    if book.one(from, 0) != 0 {
        return 0;
    }
    if runs_zero(book, from, width.bytes) {
        return BLOCK;
    }
    count_free(book, from, width)
}
