// The number that a field gives, by its form (document 01, 'Lines'; document 02, request b).
ghost use Rattle.std.specs.Prelude.{◌-◌, ◌<◌, ◌≤◌, min, ◌≡◌, length, map};
ghost use Rattle.meaning.specs.Text.{word, decimal};
ghost use Rattle.meaning.specs.Forms.{is_number, is_code, read, up_to, code, day, letters, one_of};
ghost use Rattle.shapes.specs.Table.{plain_form, field_of};
ghost use Rattle.shapes.specs.Numbered.{form_at};

use basics::byte_at;
use days::is_day;
use shapes::{Field, Form};

// ---- numbers

// A digit's number; 0 for a byte below the digits.
fn digit(c: u8) -> u32
    ensures { (result ≡ c - 48) × (result < 256) }
{
    u32::from(c.saturating_sub(b'0'))
}

// The number from which on no field's number is looked at: more than eight digits can write.
const LARGE: u32 = 100_000_000;

// A decimal number. Whatever is not below LARGE is given as that, so that digits of any number fit.
fn decimal(f: &[u8]) -> u32
    ensures { result ≡ min (decimal f.now) 100000000 }
{
    let mut n: u32 = 0;
    for &c in f {
        n = (10 * n + digit(c)).min(LARGE);
    }
    n
}

// Up to four letters as a number, the first the highest.
fn word(f: &[u8]) -> u32
    requires { length f.now ≤ 4 }
    ensures { result ≡ word f.now }
{
    let mut n: u32 = 0;
    for &c in f {
        n = 256 * n + u32::from(c);
    }
    n
}

// Numbers are decimal, without leading zeros.
fn is_number(f: &[u8]) -> bool
    ensures { result ≡ is_number f.now }
{
    f.iter().all(|&c| c.is_ascii_digit()) && b'0' < byte_at(f, 0)
}

// Attribute × 100 + value, each 1 to 99. `ranges` has the same test of a record: the reader of lines stands on nothing
// of the book, and a crate for one expression would be no plainer.
fn is_code(n: u32) -> bool
    ensures { result ≡ is_code n }
{
    (1..=99).contains(&(n / 100)) && (1..=99).contains(&(n % 100))
}

// ---- a field by its form

// The tests are joined by `&`, not `&&`: both sides are pure, and the proof takes them together.

fn up_to(f: &[u8], max: u32) -> Option<u32>
    requires { max < 100000000 }
    ensures { result ≡ read (up_to max) f.now }
{
    let n = decimal(f);
    (is_number(f) & (1..=max).contains(&n)).then_some(n)
}

fn code(f: &[u8]) -> Option<u32>
    ensures { result ≡ read code f.now }
{
    let n = decimal(f);
    (is_number(f) & is_code(n)).then_some(n)
}

fn day(f: &[u8]) -> Option<u32>
    ensures { result ≡ read day f.now }
{
    let n = decimal(f);
    ((f.len() == 8) & is_number(f) & is_day(n)).then_some(n)
}

// As many letters as the form has: n is no place in f.
fn letters(f: &[u8], n: usize) -> Option<u32>
    requires { n ≤ 4 }
    ensures { result ≡ read (letters n) f.now }
{
    if f.len() != n {
        return None;
    }
    f.iter().all(|&c| c.is_ascii_uppercase()).then_some(word(f))
}

// One of a few words, by its place, from 1 on.
fn one_of(f: &[u8], words: &[&[u8]]) -> Option<u32>
    requires { length words.now ≤ 3 }
    ensures { result ≡ read (one_of (map (λ w. w.now) words.now)) f.now }
{
    let place = words.iter().position(|&word| f == word)?;
    Some(place as u32 + 1)
}

// A field that is not empty. A match: each form has another test, and a row of the table is data, in `shapes`.
fn plain_value(f: &[u8], form: Form) -> Option<u32>
    ensures { result ≡ read (plain_form form) f.now }
{
    match form {
        Form::Csd => up_to(f, 8),
        Form::TypeNumber => up_to(f, 99),
        Form::Object => up_to(f, 2),
        Form::Processing => up_to(f, 3),
        Form::Sequence => up_to(f, 99),
        Form::Criteria => up_to(f, 1023),
        Form::Number => up_to(f, 999_999),
        Form::PartyType => up_to(f, 3),
        Form::Day => day(f),
        Form::Sign | Form::Kind | Form::Movement | Form::Payment | Form::Wish => {
            one_of(f, form.words())
        }
        Form::Code => code(f),
        Form::Transaction => letters(f, 4),
        Form::Currency => letters(f, 3),
    }
}

// A field of a row; an empty one gives 0, where it may be empty: `Some(0)`, not an Option in it, since the meaning has
// one number for a field, and no field that is filled gives 0.
pub fn field_value(f: &[u8], field: Field) -> Option<u32>
    ensures { result ≡ read (field_of field) f.now }
{
    match field {
        Field::Filled(form) => plain_value(f, form),
        Field::Optional(form) => {
            if f.is_empty() {
                return Some(0);
            }
            plain_value(f, form)
        }
    }
}

// The same of a field by the number of its form.
pub fn form_value(f: &[u8], form: u8) -> Option<u32>
    ensures { result ≡ read (form_at form) f.now }
{
    field_value(f, Field::from(form))
}
