// Whether a lent book is sound, in a time that grows with the places used: one pass over each table, in chains
// (crates/chains/specs/Chains.antt). A place is compared only with those before it in its chain. The first place that
// is not right ends the test, so no chain of rows or periods is longer than a quota.
#![tactic(auto)]

mod buckets;
mod fits;
mod free;
mod judged;
mod kinds;
mod owned;
mod place;
mod walk;

ghost use Rattle.std.specs.Prelude.{◌≡◌, ◌+◌, ◌<◌, ◌≤◌, ◌≢◌};
ghost use Rattle.tables.specs.Below.{any_below};
ghost use Rattle.places.specs.Layout.{book_size};
ghost use Rattle.book.specs.Sound.{sound};
ghost use Rattle.chains.specs.Sizes.{buckets, most_places, block_places};
ghost use Rattle.chains.specs.Chains.{NoneSeen, Tallied, Entered, Ready, Passed, Going, Block, AllPassed};
ghost use Rattle.soundness.specs.Kind.{Kind};
ghost use Rattle.soundness.specs.Kinds.{table_of, address_of, csd_at, alike_at, lone_at, csd_of, bucket_of, same_of, right_of, ChainedOf};

use chains::{BLOCK, Seen};
use free::{Width, free_first};
use judged::Judged;
use place::{Book, Place};
use places::{Period, RestrictionType, Row, Rule, SIZE};
use walk::any;

// ---- One place.

// The depository's count, if it is one and its quota is not reached.
fn counted(seen: &mut Seen, csd: u8, quota: u16) -> bool
    ensures { Tallied csd quota result seen.old seen.new }
{
    if csd > 8 {
        return false;
    }
    let c = usize::from(csd);
    let n = seen.counts[c];
    if n >= quota {
        return false;
    }
    seen.counts[c] = n + 1;
    true
}

// The bucket of a record that is right by itself.
fn lone<R: Judged>(book: Book<'_>, at: usize, owners: &R::Owners) -> Option<usize>
    requires inside { at + (table_of R.kind).width ≤ book_size }
    requires at_nonzero { csd_at book.bytes.now at ≢ 0 }
    requires owned { R.owned book.bytes.now owners.now }
    ensures { result ≡ lone_at book.entry.bytes.now R.kind at }
{
    if !R::fits(book, at, owners) {
        return None;
    }
    Some(R::bucket(book, at))
}

// Whether a place before place i, whose bucket is k, has a record that cannot stand beside that of place i.
fn held<R: Judged>(book: Book<'_>, i: u16, k: usize, seen: &Seen) -> bool
    requires place { i < (table_of R.kind).places }
    requires i_nonzero { csd_of book.bytes.now R.kind i ≢ 0 }
    requires k_value { k ≡ bucket_of book.bytes.now R.kind i }
    requires k_bound { k + 1 ≤ buckets }
    requires chained_of { ChainedOf book.bytes.now R.kind seen.now i }
    ensures { result ≡ any_below (same_of book.entry.bytes.now R.kind i) i }
{
    let place = Place::<R>::of(i);
    any(
        seen,
        k,
        |j: u16| -> bool
            requires places { j < (table_of R.kind).places }
            requires inside { place.start + (table_of R.kind).width ≤ book_size }
            ensures { result ≡ alike_at book.entry.bytes.now R.kind place.start (address_of R.kind j) }
        { R::alike(book, place.start, Place::<R>::of(j).start) },
    )
}

// Enters place i into the chain of the bucket k.
fn enter(seen: &mut Seen, k: usize, i: u16)
    requires k_bound { k + 1 ≤ buckets }
    requires i_bound { i + 1 ≤ most_places }
    ensures { Entered k i seen.old seen.new }
{
    seen.next[usize::from(i)] = seen.head[k];
    seen.head[k] = i + 1;
}

// Tests place i beside those before it, and enters it.
fn pass<R: Judged>(book: Book<'_>, i: u16, owners: &R::Owners, seen: &mut Seen) -> bool
    requires owned { R.owned book.bytes.now owners.now }
    requires ready { Ready (csd_of book.bytes.now R.kind) (bucket_of book.bytes.now R.kind) (table_of R.kind).places i seen.old }
    ensures { Passed (csd_of book.entry.bytes.now R.kind) (bucket_of book.entry.bytes.now R.kind) (right_of book.entry.bytes.now R.kind) i result seen.new }
{
    let place = Place::<R>::of(i);
    let csd = book.one(place.start, 0);
    if csd == 0 {
        return R::free(book, place.start);
    }
    if !counted(seen, csd, R::QUOTA) {
        return false;
    }
    let Some(k) = lone::<R>(book, place.start, owners) else {
        return false;
    };
    if held::<R>(book, i, k, seen) {
        return false;
    }
    enter(seen, k, i);
    true
}

// ---- The places of a table.

// A block of places from one on, one after the other, but for the first ones, which are free.
fn pass_each<R: Judged>(
    book: Book<'_>,
    from: u16,
    free: u16,
    owners: &R::Owners,
    seen: &mut Seen,
) -> bool
    requires block { from + block_places ≤ (table_of R.kind).places }
    requires free_le_block_places { free ≤ block_places }
    requires owned { R.owned book.bytes.now owners.now }
    requires going { Going (csd_of book.bytes.now R.kind) (bucket_of book.bytes.now R.kind) (table_of R.kind).places (right_of book.bytes.now R.kind) (from + free) seen.old }
    ensures { Block (csd_of book.entry.bytes.now R.kind) (bucket_of book.entry.bytes.now R.kind) (table_of R.kind).places (right_of book.entry.bytes.now R.kind) from result seen.new }
{
    for i in from + free..from + BLOCK {
        if !pass::<R>(book, i, owners, seen) {
            return false;
        }
    }
    true
}

// A block of places; those at its start that are free, at once. Widening is by `as`: with `usize::from` what
// `pass_each` asks was not proved.
fn pass_block<R: Judged>(book: Book<'_>, from: u16, owners: &R::Owners, seen: &mut Seen) -> bool
    requires block { from + block_places ≤ (table_of R.kind).places }
    requires owned { R.owned book.bytes.now owners.now }
    requires going { Going (csd_of book.bytes.now R.kind) (bucket_of book.bytes.now R.kind) (table_of R.kind).places (right_of book.bytes.now R.kind) from seen.old }
    ensures { Block (csd_of book.entry.bytes.now R.kind) (bucket_of book.entry.bytes.now R.kind) (table_of R.kind).places (right_of book.entry.bytes.now R.kind) from result seen.new }
{
    let place = Place::<R>::of(from);
    let width = Width {
        bytes: R::WIDTH as usize,
    };
    let free = free_first(book, place.start, width);
    pass_each::<R>(book, from, free, owners, seen)
}

// All places of a table, whose owners' chains are lent; its own are left to the caller.
fn all<R: Judged>(book: Book<'_>, owners: &R::Owners, seen: &mut Seen) -> bool
    requires owned { R.owned book.bytes.now owners.now }
    requires none { NoneSeen seen.old }
    ensures { AllPassed (csd_of book.entry.bytes.now R.kind) (bucket_of book.entry.bytes.now R.kind) (table_of R.kind).places (right_of book.entry.bytes.now R.kind) result seen.new }
{
    for block in 0..R::PLACES / BLOCK {
        if !pass_block::<R>(book, block * BLOCK, owners, seen) {
            return false;
        }
    }
    true
}

// ---- The whole book.

// Whether a lent book is sound.
pub fn is_sound(b: &[u8]) -> bool
    ensures { result ≡ sound b.now }
{
    let size = b.len();
    if size != SIZE {
        return false;
    }
    let book = Book { bytes: b };
    let types = &mut Seen::none();
    if !all::<RestrictionType>(book, &(), types) {
        return false;
    }
    let rules = &mut Seen::none();
    if !all::<Rule>(book, types, rules) {
        return false;
    }
    if !all::<Row>(book, rules, &mut Seen::none()) {
        return false;
    }
    all::<Period>(book, &(), &mut Seen::none())
}
