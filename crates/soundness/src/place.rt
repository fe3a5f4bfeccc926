// A lent book of the exact size, and a place in it.
ghost use Rattle.std.specs.Prelude.{◌≡◌, ℕ, ◌+◌, ◌*◌, ◌<◌, ◌≤◌, length};
ghost use Rattle.tables.specs.Bytes.{one, two, three, four, number};
ghost use Rattle.places.specs.Layout.{book_size};
ghost use Rattle.soundness.specs.Reads.{Bytes, eight_at, seven_after};
ghost use Rattle.soundness.specs.Kinds.{table_of, address_of};

use crate::kinds::Placed;
use places::address;
use std::alloc::AllocError;
use std::marker::PhantomData;

// One more than the greatest number of four bytes.
pub(crate) const FOUR_BYTES: u64 = 4294967296;

#[derive(Clone, Copy)]
pub struct Book<'a> {
    pub bytes: &'a [u8],
    pub ghost sized: { length bytes.now ≡ book_size },
}

// Numbers read straight from the book, lowest byte first, at an offset from an address. A method
// for each width, as `from_le_bytes` has a type for each. Beside places' `Bytes`, which reads 0 past the end and so
// tests the length: here it is known, and no test is made. Address and offset are parameters, as they are of `number`
// in the definitions: a struct of book and address would have to be taken by the methods of Judged, which tell a place
// by its address (see there).
impl<'a> Book<'a> {
    pub(crate) fn one(self, at: usize, j: usize) -> u8
        requires { at + (j + 1) ≤ book_size }
        ensures { result ≡ number one self.entry.bytes.now at j }
    {
        self.bytes[at + j]
    }

    pub(crate) fn two(self, at: usize, j: usize) -> u32
        requires { at + (j + 2) ≤ book_size }
        ensures value { result ≡ number two self.entry.bytes.now at j }
        ensures bytes { Bytes self.entry.bytes.now }
    {
        let i = at + j;
        let b = self.bytes;
        u32::from(u16::from_le_bytes([b[i], b[i + 1]]))
    }

    pub(crate) fn three(self, at: usize, j: usize) -> u32
        requires { at + (j + 3) ≤ book_size }
        ensures value { result ≡ number three self.entry.bytes.now at j }
        ensures bytes { Bytes self.entry.bytes.now }
    {
        let i = at + j;
        let b = self.bytes;
        u32::from_le_bytes([b[i], b[i + 1], b[i + 2], 0])
    }

    pub(crate) fn four(self, at: usize, j: usize) -> u32
        requires { at + (j + 4) ≤ book_size }
        ensures value { result ≡ number four self.entry.bytes.now at j }
        ensures bytes { Bytes self.entry.bytes.now }
    {
        let i = at + j;
        let b = self.bytes;
        u32::from_le_bytes([b[i], b[i + 1], b[i + 2], b[i + 3]])
    }

    pub(crate) fn eight(self, at: usize, j: usize) -> u64
        requires { at + (j + 8) ≤ book_size }
        ensures value { result ≡ eight_at self.entry.bytes.now at j }
        ensures bytes { Bytes self.entry.bytes.now }
    {
        u64::from(self.four(at, j)) + FOUR_BYTES * u64::from(self.four(at, j + 4))
    }

    // The seven bytes after the one at an offset.
    pub(crate) fn seven_after(self, at: usize, j: usize) -> u64
        requires { at + (j + 8) ≤ book_size }
        ensures value { result ≡ seven_after self.entry.bytes.now at j }
        ensures bytes { Bytes self.entry.bytes.now }
    {
        self.eight(at, j) / 256
    }
}

// Where the place of a record starts, which ends within the book.
pub struct Place<R: Placed> {
    pub start: usize,
    pub of: PhantomData<R>,
    pub ghost inside: { start + (table_of R.kind).width ≤ book_size },
}

// By hand: `derive` was tried, and is refused over a ghost field ('cannot be derived for a struct with a ghost field').
impl<R: Placed> Copy for Place<R> {}

impl<R: Placed> Clone for Place<R> {
    fn clone(&self) -> Result<Place<R>, AllocError> {
        Ok(*self)
    }
}

impl<R: Placed> Place<R> {
    pub(crate) fn new(start: usize) -> Place<R>
        requires { start + (table_of R.kind).width ≤ book_size }
        ensures { result.start ≡ start }
    {
        Place {
            start,
            of: PhantomData,
        }
    }

    // Place i of the record's table.
    pub(crate) fn of(i: u16) -> Place<R>
        requires { i < (table_of R.kind).places }
        ensures { result.start ≡ address_of R.kind i }
    {
        Place::new(address::<R>(i) as usize)
    }
}
