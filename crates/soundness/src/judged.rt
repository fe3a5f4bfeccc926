// What soundness asks of the record at a place, for each table of the book.
ghost use Rattle.std.specs.Prelude.{◌≡◌, ◌+◌, ◌≤◌, ◌≢◌, List, ℕ};
ghost use Rattle.places.specs.Layout.{book_size, type_places};
ghost use Rattle.chains.specs.declared.Seen.{Seen};
ghost use Rattle.soundness.specs.Kind.{Kind};
ghost use Rattle.soundness.specs.Kinds.{table_of, csd_at, free_at, alike_at, fit_at, bucket_at, ChainedOf, RulesChained};

use crate::buckets::{OWN_BUCKETS, fold, key_bucket, own_bucket};
use crate::fits::rule_key_fits;
use crate::kinds::Placed;
use crate::owned::{ruled, typed};
use crate::place::{Book, Place};
use chains::Seen;
use places::{Period, RestrictionType, Row, Rule};
use ranges::{days_fit, is_code, key_fits};

// A record is told by the address of its place, and each method asks that the place ends within the book: the kit does
// not yet prove an impl whose methods take a Place<Self>, which says so by its type.
pub trait Judged: Placed {
    // The chains of the table in which its owner is looked for, where it has one.
    type Owners;

    // What is known of those chains. Functions over a table ask for it beside the book and the chains. A struct of the
    // two that holds it was tried: a ghost field has to be a proposition, which this is at each record but not at a
    // type parameter, and a law of each impl that it is one is no plainer.
    ghost owned: { List ℕ → Self.Owners → Type 0 };

    // Whether the place is free. Kept beside `width_free`, which asks the same by the width: with that in `pass` the
    // full book took 1.07 times as long.
    fn free(book: Book<'_>, at: usize) -> bool
        requires { at + (table_of Self.kind).width ≤ book_size }
        ensures { result ≡ free_at book.entry.bytes.now Self.kind at };

    // Whether the record cannot stand beside the one at another address.
    fn alike(book: Book<'_>, at: usize, other: usize) -> bool
        requires own { at + (table_of Self.kind).width ≤ book_size }
        requires other { other + (table_of Self.kind).width ≤ book_size }
        ensures { result ≡ alike_at book.entry.bytes.now Self.kind at other };

    // Whether a record is right by itself: in its range, and with its owner. That the place is used stands as a clause:
    // free places are places too, so a ghost field for it would need a type beside.
    fn fits(book: Book<'_>, at: usize, owners: &Self::Owners) -> bool
        requires inside { at + (table_of Self.kind).width ≤ book_size }
        requires at_nonzero { csd_at book.bytes.now at ≢ 0 }
        requires owned { owned book.bytes.now owners.now }
        ensures { result ≡ fit_at book.entry.bytes.now Self.kind at };

    fn bucket(book: Book<'_>, at: usize) -> usize
        requires { at + (table_of Self.kind).width ≤ book_size }
        ensures { result ≡ bucket_at book.entry.bytes.now Self.kind at };
}

impl Judged for RestrictionType {
    type Owners = ();

    ghost owned = { λ b owners. Unit {0} };

    fn free(book: Book<'_>, at: usize) -> bool
        requires { at + (table_of Kind.Types).width ≤ book_size }
        ensures { result ≡ free_at book.entry.bytes.now Kind.Types at }
    {
        (book.four(at, 0) == 0) & (book.eight(at, 4) == 0)
    }

    // The same depository, type and object.
    fn alike(book: Book<'_>, at: usize, other: usize) -> bool
        requires own { at + (table_of Kind.Types).width ≤ book_size }
        requires other { other + (table_of Kind.Types).width ≤ book_size }
        ensures { result ≡ alike_at book.entry.bytes.now Kind.Types at other }
    {
        book.three(other, 0) == book.three(at, 0)
    }

    fn fits(book: Book<'_>, at: usize, _owners: &()) -> bool
        requires { at + (table_of Kind.Types).width ≤ book_size }
        ensures { result ≡ fit_at book.entry.bytes.now Kind.Types at }
    {
        let object = book.one(at, 2);
        let processing = book.one(at, 3);
        let key = key_fits(book.one(at, 1), object);
        let known = (RestrictionType::REJECTION <= processing)
            & (processing <= RestrictionType::PARTY_HOLD);
        // A party hold is of instructions only.
        let wrong = (processing == RestrictionType::PARTY_HOLD)
            & (object == RestrictionType::RESTRICTION);
        let days = days_fit(book.four(at, 4), book.four(at, 8));
        key & (known & !wrong & days)
    }

    fn bucket(book: Book<'_>, at: usize) -> usize
        requires { at + (table_of Kind.Types).width ≤ book_size }
        ensures { result ≡ bucket_at book.entry.bytes.now Kind.Types at }
    {
        key_bucket(book.three(at, 0))
    }
}

impl Judged for Rule {
    type Owners = Seen;

    ghost owned = { λ b types. ChainedOf b Kind.Types types type_places };

    fn free(book: Book<'_>, at: usize) -> bool
        requires { at + (table_of Kind.Rules).width ≤ book_size }
        ensures { result ≡ free_at book.entry.bytes.now Kind.Rules at }
    {
        let says = (book.three(at, 4) == 0) & (book.eight(at, 7) == 0);
        (book.four(at, 0) == 0) & says
    }

    // The same type, and the same sequence. Kept beside that of types: their keys have three bytes and four, and one
    // function would have to be told how each is read. So too `bucket`.
    fn alike(book: Book<'_>, at: usize, other: usize) -> bool
        requires own { at + (table_of Kind.Rules).width ≤ book_size }
        requires other { other + (table_of Kind.Rules).width ≤ book_size }
        ensures { result ≡ alike_at book.entry.bytes.now Kind.Rules at other }
    {
        book.four(other, 0) == book.four(at, 0)
    }

    fn fits(book: Book<'_>, at: usize, owners: &Seen) -> bool
        requires inside { at + (table_of Kind.Rules).width ≤ book_size }
        requires at_nonzero { csd_at book.bytes.now at ≢ 0 }
        requires owned { ChainedOf book.bytes.now Kind.Types owners.now type_places }
        ensures { result ≡ fit_at book.entry.bytes.now Kind.Rules at }
    {
        let sign = book.one(at, 4);
        let criteria = book.two(at, 5);
        let signed = (Rule::POSITIVE <= sign) & (sign <= Rule::NEGATIVE);
        let asks = (1 <= criteria) & (criteria <= 1023);
        let days = days_fit(book.four(at, 7), book.four(at, 11));
        let place = Place::new(at);
        if !(rule_key_fits(book, place) & (signed & asks & days)) {
            return false;
        }
        typed(book, place, owners)
    }

    fn bucket(book: Book<'_>, at: usize) -> usize
        requires { at + (table_of Kind.Rules).width ≤ book_size }
        ensures { result ≡ bucket_at book.entry.bytes.now Kind.Rules at }
    {
        key_bucket(book.four(at, 0))
    }
}

impl Judged for Row {
    type Owners = Seen;

    ghost owned = { λ b rules. RulesChained b rules };

    fn free(book: Book<'_>, at: usize) -> bool
        requires { at + (table_of Kind.Rows).width ≤ book_size }
        ensures { result ≡ free_at book.entry.bytes.now Kind.Rows at }
    {
        let front = (book.four(at, 0) == 0) & (book.seven_after(at, 3) == 0);
        front & ((book.eight(at, 11) == 0) & (book.seven_after(at, 18) == 0))
    }

    // The same rule, and the same values.
    fn alike(book: Book<'_>, at: usize, other: usize) -> bool
        requires own { at + (table_of Kind.Rows).width ≤ book_size }
        requires other { other + (table_of Kind.Rows).width ≤ book_size }
        ensures { result ≡ alike_at book.entry.bytes.now Kind.Rows at other }
    {
        if book.four(other, 0) != book.four(at, 0) {
            return false;
        }
        if book.seven_after(at, 3) != book.seven_after(other, 3) {
            return false;
        }
        if book.eight(at, 11) != book.eight(other, 11) {
            return false;
        }
        book.seven_after(at, 18) == book.seven_after(other, 18)
    }

    // A row's key is in its range, since it is that of a rule which is right.
    fn fits(book: Book<'_>, at: usize, owners: &Seen) -> bool
        requires inside { at + (table_of Kind.Rows).width ≤ book_size }
        requires at_nonzero { csd_at book.bytes.now at ≢ 0 }
        requires owned { RulesChained book.bytes.now owners.now }
        ensures { result ≡ fit_at book.entry.bytes.now Kind.Rows at }
    {
        ruled(book, Place::new(at), owners)
    }

    fn bucket(book: Book<'_>, at: usize) -> usize
        requires { at + (table_of Kind.Rows).width ≤ book_size }
        ensures { result ≡ bucket_at book.entry.bytes.now Kind.Rows at }
    {
        let sum = book.seven_after(at, 3).wrapping_add(book.eight(at, 11));
        let all = sum.wrapping_add(book.seven_after(at, 18));
        let k = key_bucket(fold(all, book.four(at, 0)));
        own_bucket(book.one(at, 0), k / 8)
    }
}

impl Judged for Period {
    type Owners = ();

    ghost owned = { λ b owners. Unit {0} };

    fn free(book: Book<'_>, at: usize) -> bool
        requires { at + (table_of Kind.Periods).width ≤ book_size }
        ensures { result ≡ free_at book.entry.bytes.now Kind.Periods at }
    {
        let of = (book.two(at, 0) == 0) & (book.three(at, 2) == 0);
        of & ((book.two(at, 5) == 0) & (book.eight(at, 7) == 0))
    }

    // The same depository, kind, number and attribute, and a day in common.
    fn alike(book: Book<'_>, at: usize, other: usize) -> bool
        requires own { at + (table_of Kind.Periods).width ≤ book_size }
        requires other { other + (table_of Kind.Periods).width ≤ book_size }
        ensures { result ≡ alike_at book.entry.bytes.now Kind.Periods at other }
    {
        if book.two(other, 0) != book.two(at, 0) {
            return false;
        }
        if book.three(other, 2) != book.three(at, 2) {
            return false;
        }
        if book.two(other, 5) / 100 != book.two(at, 5) / 100 {
            return false;
        }
        if book.four(other, 7) > book.four(at, 11) {
            return false;
        }
        book.four(at, 7) <= book.four(other, 11)
    }

    fn fits(book: Book<'_>, at: usize, _owners: &()) -> bool
        requires { at + (table_of Kind.Periods).width ≤ book_size }
        ensures { result ≡ fit_at book.entry.bytes.now Kind.Periods at }
    {
        let kind = book.one(at, 1);
        let number = book.three(at, 2);
        let known = (Period::PARTY <= kind) & (kind <= Period::SECURITY);
        let numbered = (1 <= number) & (number <= 999999);
        let days = days_fit(book.four(at, 7), book.four(at, 11));
        known & numbered & (is_code(book.two(at, 5)) & days)
    }

    fn bucket(book: Book<'_>, at: usize) -> usize
        requires { at + (table_of Kind.Periods).width ≤ book_size }
        ensures { result ≡ bucket_at book.entry.bytes.now Kind.Periods at }
    {
        // By `as`: with `usize::from` the law of the bucket was not found.
        let of = book.three(at, 2) as usize
            + book.one(at, 1) as usize * 85
            + (book.two(at, 5) / 100) as usize * 37;
        own_bucket(book.one(at, 0), of % OWN_BUCKETS)
    }
}
