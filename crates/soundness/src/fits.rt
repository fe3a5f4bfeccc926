// The ranges of a rule's key and of a row's values (document 01, 'Lines').
ghost use Rattle.std.specs.Prelude.{◌≡◌, ◌+◌, ◌*◌, ◌≤◌, drop, IfSome};
ghost use Rattle.meaning.specs.Forms.{holds, optional, code, transaction_form, currency_form, ten_values};
ghost use Rattle.meaning.specs.Sound.{type_fits, rule_fits, period_fits};
ghost use Rattle.places.specs.Layout.{book_size};
ghost use Rattle.records.specs.Said.{type_of, rule_of, period_of};
ghost use Rattle.soundness.specs.Reads.{type_read, rule_read, row_read, period_read, key_holds};
ghost use Rattle.soundness.specs.Alike.{OrNone, filled_in, filled_or_none, one_more};

use crate::place::{Book, Place};
use places::{Row, Rule};
use ranges::{four_letters, is_code, key_fits, three_letters};

// With `&` what is returned is one equation of Booleans, which a law of theirs shows; so in all functions of this crate
// that use it.

// The key of a rule.
pub(crate) fn rule_key_fits(book: Book<'_>, place: Place<Rule>) -> bool
    ensures { result ≡ key_holds book.entry.bytes.now place.start }
{
    let at = place.start;
    let sequence = book.one(at, 3);
    let key = key_fits(book.one(at, 1), book.one(at, 2));
    key & ((1 <= sequence) & (sequence <= 99))
}

// ---- The criteria that a row's values fill, the last value first.

// An empty value, or one as asked: an empty one is not asked further, which costs less.
fn or_none<F: Fn(u32) -> bool>(x: u32, asked: F) -> bool
    requires { F.pre asked x }
    ensures { OrNone x (F.post asked x) result }
{
    x == 0 || asked(x)
}

// A value in front of those whose criteria are n.
fn one_more(x: u32, n: u32) -> u32
    requires { n ≤ 512 }
    ensures value { result ≡ one_more x n }
    ensures upper_bound { result ≤ 2 * n + 1 }
{
    2 * n + u32::from(x != 0)
}

// The criteria of the codes and the currency; with transaction, security and account; with party type, movement and
// payment: none where a value is not in its range.

fn filled_codes(book: Book<'_>, place: Place<Row>) -> Option<u32>
    ensures value { result ≡ filled_in (drop 6 ten_values) (drop 6 (row_read book.entry.bytes.now place.start).values) }
    ensures upper_bound { IfSome result (λ n. n ≤ 15) }
{
    let at = place.start;
    let party = book.two(at, 17);
    let account = book.two(at, 19);
    let security = book.two(at, 21);
    let currency = book.three(at, 23);
    let accounts = or_none(account, is_code) & or_none(security, is_code);
    let codes = or_none(party, is_code) & accounts;
    if !(codes & or_none(currency, three_letters)) {
        return None;
    }
    let last = one_more(security, one_more(currency, 0));
    Some(one_more(party, one_more(account, last)))
}

fn filled_names(book: Book<'_>, place: Place<Row>) -> Option<u32>
    ensures value { result ≡ filled_in (drop 3 ten_values) (drop 3 (row_read book.entry.bytes.now place.start).values) }
    ensures upper_bound { IfSome result (λ n. n ≤ 127) }
{
    let codes = filled_codes(book, place)?;
    let at = place.start;
    let transaction = book.four(at, 7);
    let security = book.three(at, 11);
    let account = book.three(at, 14);
    if !(or_none(transaction, four_letters) & ((security <= 999999) & (account <= 999999))) {
        return None;
    }
    Some(one_more(transaction, one_more(security, one_more(account, codes))))
}

pub(crate) fn filled(book: Book<'_>, place: Place<Row>) -> Option<u32>
    ensures { result ≡ filled_or_none (row_read book.entry.bytes.now place.start).values }
{
    let names = filled_names(book, place)?;
    let at = place.start;
    let party = u32::from(book.one(at, 4));
    let movement = u32::from(book.one(at, 5));
    let payment = u32::from(book.one(at, 6));
    if !((party <= 3) & ((movement <= 2) & (payment <= 2))) {
        return None;
    }
    Some(one_more(party, one_more(movement, one_more(payment, names))))
}
