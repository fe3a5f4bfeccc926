// Which places of a table are a depository's. The places of others, and the free ones, are passed by their first byte,
// eight at once.
#![tactic(auto)]

ghost use Rattle.std.specs.Prelude.{◌≡◌, ◌+◌, ◌*◌, ◌-◌, ◌<◌, ◌≤◌, eqb, length, MatchOption};
ghost use Rattle.std.specs.Iterator.{at_most};
ghost use Rattle.tables.specs.Bytes.{byte_at};
ghost use Rattle.owners.specs.Next.{first_from, owned, next, Passed, place_if};

use basics::byte_at;
use places::{Place, address};
use std::marker::PhantomData;

// Which of eight places, the first at an address, is the first of depository a; 8 where none is, which is how many are
// passed then, and so no Option. Widening is by `as`: with `usize::from` the bounds in the closure were not proved. The
// address and the width are numbers, as the law of eight places has them.
fn first_of_eight(b: &[u8], at: usize, width: u8, a: u8) -> u16
    requires { at + 7 * width < length b.now }
    ensures { result ≡ first_from (λ j. eqb (byte_at b.now (at + j * width)) a) 0 8 }
{
    (0..8)
        .find(|&j: &u16| b[at + j as usize * width as usize] == a)
        .unwrap_or(8)
}

// Book, place and depository are parameters here and below, and no methods of the iterator: contracts speak of the
// place that is reached, and not of where the iterator stands.

// How many places from place i on are passed at once: up to 8, none where the book ends before the eighth.
fn eight_passed<P: Place>(b: &[u8], i: u16, a: u8) -> u16
    ensures { (result ≤ 8) × Passed (owned b.now P.START P.WIDTH a) i (i + result) }
{
    let at = address::<P>(i) as usize;
    let width = P::WIDTH;
    if at + 7 * (width as usize) < b.len() {
        return first_of_eight(b, at, width, a);
    }
    0
}

// A place from i on, up to which no place is depository a's: it is the first that is, or fewer than eight are left, or
// the book ends. The loop stays: it goes on by eight, and where it ends is the answer.
fn pass<P: Place>(b: &[u8], i: u16, a: u8) -> u16
    ensures { (i ≤ result) × Passed (owned b.now P.START P.WIDTH a) i result }
{
    let mut k = i;
    while k as u32 + 8 <= P::PLACES as u32 {
        let n = eight_passed::<P>(b, k, a);
        if n < 8 {
            return k + n;
        }
        k += 8;
    }
    k
}

// The first place from place i on that is depository a's. A free place is depository 0's.
pub fn next<P: Place>(b: &[u8], i: u16, a: u8) -> Option<u16>
    ensures { result ≡ place_if P.PLACES (next (λ k. eqb (P.csd (P.at b.now k)) a) P.PLACES i) }
{
    let from = pass::<P>(b, i, a);
    (from..P::PLACES).find(
        |&k: &u16| -> bool
            ensures { result ≡ owned b.entry.now P.START P.WIDTH a k }
        { byte_at(b, address::<P>(k) as usize) == a },
    )
}

// The places of depository a, in rising order; those before place i were given.
#[derive(Drop)]
pub struct PlacesOf<'a, P> {
    pub b: &'a [u8],
    pub a: u8,
    pub i: u16,
    pub table: PhantomData<P>,
}

pub fn places_of<P: Place>(b: &[u8], a: u8) -> PlacesOf<'_, P>
    ensures { (result.b.now ≡ b.now) × (result.a ≡ a) × (result.i ≡ 0) }
{
    PlacesOf {
        b,
        a,
        i: 0,
        table: PhantomData,
    }
}

impl<'a, P: Place> Iterator for PlacesOf<'a, P> {
    type Item = u16;

    ghost next_gives = { λ s r t. (r ≡ place_if P.PLACES (next (λ k. eqb (P.csd (P.at s.b.now k)) s.a) P.PLACES s.i))
        × (t.b ≡ s.b) × (t.a ≡ s.a) × MatchOption r (t.i ≡ P.PLACES) (λ k. t.i ≡ k + 1) };

    ghost remaining = { λ s. at_most (P.PLACES - s.i) };

    fn next(&mut self) -> Option<u16> {
        let places = P::PLACES;
        match next::<P>(self.b, self.i, self.a) {
            Some(k) => {
                self.i = k + 1;
                Some(k)
            }
            None => {
                self.i = places;
                None
            }
        }
    }
}
