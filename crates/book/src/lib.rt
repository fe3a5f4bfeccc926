// The lent book: the lone book of each depository, counting and finding in it, emptying.
#![tactic(auto)]

ghost use Rattle.std.specs.Prelude.{◌≡◌, ◌≤◌};
ghost use Rattle.tables.specs.Count.{count};
ghost use Rattle.tables.specs.Table.{list_of, hit, place_of};
ghost use Rattle.owners.specs.Next.{place_if};
ghost use Rattle.book.specs.Emptied.{Emptied};

use meaning::Refusal;
use owners::places_of;
use places::{Place, SIZE, csd_at, record_at};
use records::Record;

// ---- Emptying.

// Makes a book of no records from lent space of the exact size; other sizes get 1 and stay untouched.
pub fn empty(book: &mut [u8]) -> Result<(), Refusal>
    ensures { Emptied book.old book.new result }
{
    if book.len() != SIZE {
        return Err(Refusal::UnsoundBook);
    }
    book.fill(0);
    Ok(())
}

// ---- Over the places of a table. Book, depository and question are parameters: what is asked differs at each call,
// and who asks often holds the others in a struct (refusals' `Lists`).

// Whether place i holds a record of depository a that is as asked. The csd byte is read before the record, and in the
// caller's loop: what is asked may hold a whole row, which a call would copy for each place.
#[inline(always)]
pub fn is_hit<P: Record>(b: &[u8], i: u16, a: u8, q: P::Ask) -> bool
    ensures { result ≡ hit P.table b.now a (P.asked q) i }
{
    if csd_at::<P>(b, i) == a {
        return record_at::<P>(b, i).meets(q);
    }
    false
}

// How many records of depository a are as asked. The places of others are passed.
#[inline(always)]
fn counted<P: Record>(b: &[u8], a: u8, q: P::Ask) -> u16
    ensures { (result ≡ count (P.asked q) (list_of P.table a b.now)) × (result ≤ P.PLACES) }
{
    let mut n: u16 = 0;
    for k in places_of::<P>(b, a) {
        n += u16::from(is_hit::<P>(b, k, a, q));
    }
    n
}

// The same. Where the book has its size, that is said once, and no read of a place asks for it again: who asks often
// holds the book in a struct, and from there the compiler does not see how long it is.
pub fn count<P: Record>(b: &[u8], a: u8, q: P::Ask) -> u16
    ensures { (result ≡ count (P.asked q) (list_of P.table a b.now)) × (result ≤ P.PLACES) }
{
    if b.len() == SIZE {
        return counted::<P>(&b[..SIZE], a, q);
    }
    counted::<P>(b, a, q)
}

// The last place that holds a record of depository a as asked. A free place is depository 0's.
pub fn find<P: Record>(b: &[u8], a: u8, q: P::Ask) -> Option<u16>
    ensures { result ≡ place_if P.PLACES (place_of P.table b.now a (P.asked q)) }
{
    (0..P::PLACES)
        .rev()
        .find(|&i: &u16| is_hit::<P>(b, i, a, q))
}
