// Whether a record has its owner, which is looked for in the chains of the table before.
ghost use Rattle.std.specs.Prelude.{◌≡◌, ◌<◌, ◌&&◌, ◌≢◌};
ghost use Rattle.tables.specs.Below.{any_below};
ghost use Rattle.meaning.specs.Forms.{holds_all, ten_values};
ghost use Rattle.meaning.specs.Keys.{filled};
ghost use Rattle.places.specs.Layout.{type_places, rule_places};
ghost use Rattle.soundness.specs.Kind.{Kind};
ghost use Rattle.soundness.specs.Reads.{type_read, rule_read, row_read};
ghost use Rattle.soundness.specs.Alike.{typed_by, ruled_by};
ghost use Rattle.soundness.specs.Kinds.{csd_at, typed_in, ruled_in, ChainedOf};

use crate::buckets::key_bucket;
use crate::fits::filled;
use crate::place::{Book, Place};
use crate::walk::any;
use chains::Seen;
use places::{RestrictionType, Row, Rule};

// Whether the type at another place is that of the rule.
fn typed_by(book: Book<'_>, place: Place<Rule>, other: Place<RestrictionType>) -> bool
    ensures { result ≡ typed_by (rule_read book.entry.bytes.now place.start) (type_read book.entry.bytes.now other.start) }
{
    book.three(other.start, 0) == book.three(place.start, 0)
}

// Whether the rule at another place is that of the row, which fills these criteria. No twin of the test above: it asks
// for more than the key.
fn ruled_by(book: Book<'_>, place: Place<Row>, other: Place<Rule>, criteria: u32) -> bool
    requires { criteria ≡ filled (row_read book.bytes.now place.start).values }
    ensures { result ≡ ruled_by (row_read book.entry.bytes.now place.start) (rule_read book.entry.bytes.now other.start) }
{
    if book.four(other.start, 0) != book.four(place.start, 0) {
        return false;
    }
    book.two(other.start, 5) == criteria
}

// Whether a rule has its type.
pub(crate) fn typed(book: Book<'_>, place: Place<Rule>, types: &Seen) -> bool
    requires at_nonzero { csd_at book.bytes.now place.start ≢ 0 }
    requires chained_of { ChainedOf book.bytes.now Kind.Types types.now type_places }
    ensures { result ≡ any_below (typed_in book.entry.bytes.now place.start) type_places }
{
    any(
        types,
        key_bucket(book.three(place.start, 0)),
        |j: u16| -> bool
            requires { j < type_places }
            ensures { result ≡ typed_in book.entry.bytes.now place.start j }
        { typed_by(book, place, Place::of(j)) },
    )
}

// Whether a row's values are in their ranges, and it has its rule, with the criteria that it fills.
pub(crate) fn ruled(book: Book<'_>, place: Place<Row>, rules: &Seen) -> bool
    requires at_nonzero { csd_at book.bytes.now place.start ≢ 0 }
    requires chained_of { ChainedOf book.bytes.now Kind.Rules rules.now rule_places }
    ensures { result ≡ (holds_all ten_values (row_read book.entry.bytes.now place.start).values && any_below (ruled_in book.entry.bytes.now place.start) rule_places) }
{
    let Some(criteria) = filled(book, place) else {
        return false;
    };
    any(
        rules,
        key_bucket(book.four(place.start, 0)),
        |j: u16| -> bool
            requires places { j < rule_places }
            requires criteria { criteria ≡ filled (row_read book.bytes.now place.start).values }
            ensures { result ≡ ruled_in book.entry.bytes.now place.start j }
        { ruled_by(book, place, Place::of(j), criteria) },
    )
}
