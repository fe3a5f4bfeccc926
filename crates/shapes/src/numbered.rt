// Rows and fields by number, for a caller that has numbers: a row's is its index in the table, a field's that of its
// form in their order, and 32 more where it may be empty. Every number has a row, and a field.
ghost use Rattle.std.specs.Prelude.{◌≡◌, get_or};
ghost use Rattle.meaning.specs.Forms.{csd_form, letter_byte};
ghost use Rattle.shapes.specs.Table.{field_of, row_of};
ghost use Rattle.shapes.specs.Names.{form_named, row_named};
ghost use Rattle.shapes.specs.declared.Form.TheVariants.{Csd};
ghost use Rattle.shapes.specs.declared.Field.TheVariants.{Filled};
ghost use Rattle.shapes.specs.Numbered.{form_at, forms_at, shape_at, Counted};

use crate::{Field, Form, Shape};

// From this number on a field may be empty.
const OPTIONAL: u8 = 32;

// The forms in the order of their numbers, but for the last.
static FORMS: [Form; 16] = [
    Form::Csd,
    Form::TypeNumber,
    Form::Object,
    Form::Processing,
    Form::Sequence,
    Form::Criteria,
    Form::Number,
    Form::PartyType,
    Form::Day,
    Form::Sign,
    Form::Kind,
    Form::Code,
    Form::Movement,
    Form::Payment,
    Form::Transaction,
    Form::Wish,
];

// A form by its number; past the last a currency.
fn form_named(form: u8) -> Form
    ensures { result ≡ form_named form }
{
    FORMS
        .get(usize::from(form))
        .copied()
        .unwrap_or(Form::Currency)
}

// A row by its number; past the table the shorter Q.
fn row_named(shape: u8) -> Shape
    ensures { result ≡ row_named shape }
{
    Shape::ALL
        .get(usize::from(shape))
        .copied()
        .unwrap_or(Shape::Question)
}

impl From<u8> for Shape {
    ghost from_gives = { λ n shape. row_of shape ≡ shape_at n };

    fn from(n: u8) -> Shape {
        row_named(n)
    }
}

impl From<u8> for Field {
    ghost from_gives = { λ n field. field_of field ≡ form_at n };

    fn from(n: u8) -> Field {
        if n < OPTIONAL {
            Field::Filled(form_named(n))
        } else {
            Field::Optional(form_named(n - OPTIONAL))
        }
    }
}

impl From<Field> for u8 {
    ghost from_gives = { λ field n. form_at n ≡ field_of field };

    fn from(field: Field) -> u8 {
        match field {
            Field::Filled(form) => form as u8,
            Field::Optional(form) => OPTIONAL + form as u8,
        }
    }
}

// The letter of a row.
pub fn shape_letter(shape: u8) -> u8
    ensures { result ≡ letter_byte (shape_at shape).letter }
{
    Shape::from(shape).letter()
}

// How many fields stand after a row's letter.
pub fn form_count(shape: u8) -> usize
    ensures { Counted shape result }
{
    Shape::from(shape).fields().len()
}

// A field by its index; past the last a csd.
fn field_at(fields: &[Field], k: usize) -> Field
    ensures { result ≡ get_or fields.now k (Filled Csd) }
{
    fields.get(k).copied().unwrap_or(Field::Filled(Form::Csd))
}

// The number of the form of a row's field k; past the last field a csd's.
pub fn form_number(shape: u8, k: usize) -> u8
    ensures { form_at result ≡ get_or (forms_at shape) k csd_form }
{
    u8::from(field_at(Shape::from(shape).fields(), k))
}
