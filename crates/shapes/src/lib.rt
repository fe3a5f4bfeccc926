// The table of shapes (document 01, 'Lines', and document 02, request b): a row is a letter and the forms of the fields
// after it. Lines are read and written by it.
#![tactic(auto)]

mod numbered;

ghost use Rattle.std.specs.Prelude.{◌≡◌, ◌≤◌, length, map};
ghost use Rattle.meaning.specs.Forms.{letter_byte};
ghost use Rattle.shapes.specs.Table.{plain_form, words_of, field_of, forms_of, row_of};

use Field::{Filled, Optional};
use Form::{
    Code, Criteria, Csd, Currency, Day, Kind, Movement, Number, Object, PartyType, Payment,
    Processing, Sequence, Sign, Transaction, TypeNumber, Wish,
};
pub use numbered::{form_count, form_number, shape_letter};

// ---- the forms of fields

// What a field holds that is not empty.
#[derive(Clone, Copy, Debug, PartialEq, Eq)]
pub enum Form {
    // Numbers from 1 to a most. `Number` is that of a party, an account or a security.
    Csd,
    TypeNumber,
    Object,
    Processing,
    Sequence,
    Criteria,
    Number,
    PartyType,
    // Other forms. A wish is a hold indicator or an account default.
    Day,
    Sign,
    Kind,
    Code,
    Movement,
    Payment,
    Transaction,
    Wish,
    Currency,
}

// The words of the forms that are one of a few, in their order: a word's place, from 1 on, is its number.
static SIGNS: [&[u8]; 2] = [b"P", b"N"];

static KINDS: [&[u8]; 3] = [b"P", b"A", b"S"];

static MOVEMENTS: [&[u8]; 2] = [b"DELI", b"RECE"];

static PAYMENTS: [&[u8]; 2] = [b"APMT", b"FREE"];

static WISHES: [&[u8]; 2] = [b"Y", b"N"];

impl Form {
    // The words of a form; none, where it is no choice of words.
    #[tactic(auto, unfolding(crate::specs::Table::words_of))]
    pub fn words(self) -> &'static [&'static [u8]]
        ensures words { map (λ w. w.now) result.now ≡ words_of (plain_form self) }
        ensures few { length result.now ≤ 3 }
    {
        match self {
            Form::Sign => &SIGNS,
            Form::Kind => &KINDS,
            Form::Movement => &MOVEMENTS,
            Form::Payment => &PAYMENTS,
            Form::Wish => &WISHES,
            _ => &[],
        }
    }
}

// A field of a row: of a form, or of a form or empty.
#[derive(Clone, Copy, Debug, PartialEq, Eq)]
pub enum Field {
    Filled(Form),
    Optional(Form),
}

// ---- the table

// The fields after each row's letter: N has those of M, and Z those of A. They are statics, so that none is copied.
static FIELDS_T: [Field; 7] = [
    Filled(Csd),
    Filled(Day),
    Filled(TypeNumber),
    Filled(Object),
    Filled(Processing),
    Filled(Day),
    Filled(Day),
];

static FIELDS_E: [Field; 5] = [
    Filled(Csd),
    Filled(Day),
    Filled(TypeNumber),
    Filled(Object),
    Filled(Day),
];

static FIELDS_R: [Field; 9] = [
    Filled(Csd),
    Filled(Day),
    Filled(TypeNumber),
    Filled(Object),
    Filled(Sequence),
    Filled(Sign),
    Filled(Criteria),
    Filled(Day),
    Filled(Day),
];

static FIELDS_O: [Field; 6] = [
    Filled(Csd),
    Filled(Day),
    Filled(TypeNumber),
    Filled(Object),
    Filled(Sequence),
    Filled(Sequence), // the new one
];

static FIELDS_D: [Field; 5] = [
    Filled(Csd),
    Filled(Day),
    Filled(TypeNumber),
    Filled(Object),
    Filled(Sequence),
];

static FIELDS_M: [Field; 15] = [
    Filled(Csd),
    Filled(Day),
    Filled(TypeNumber),
    Filled(Object),
    Filled(Sequence),
    Optional(PartyType),
    Optional(Movement),
    Optional(Payment),
    Optional(Transaction),
    Optional(Number),
    Optional(Number),
    Optional(Code),
    Optional(Code),
    Optional(Code),
    Optional(Currency),
];

static FIELDS_A: [Field; 7] = [
    Filled(Csd),
    Filled(Day),
    Filled(Kind),
    Filled(Number),
    Filled(Code),
    Filled(Day),
    Filled(Day),
];

// How many fields a Q has without hold indicator and account default.
const WITHOUT_WISHES: usize = 11;

static FIELDS_Q: [Field; 13] = [
    Filled(Csd),
    Filled(Day),
    Filled(Object),
    Filled(PartyType),
    Optional(Movement),
    Optional(Payment),
    Optional(Transaction),
    Optional(Currency),
    Filled(Number), // party
    Filled(Number), // account
    Filled(Number), // security
    Optional(Wish), // hold indicator
    Filled(Wish), // account default
];

// The table's rows, named by their letters. A letter may have several, of different lengths: Q may carry two more
// fields, a hold indicator and an account default.
#[derive(Clone, Copy, Debug, PartialEq, Eq)]
pub enum Shape {
    T,
    E,
    R,
    O,
    D,
    M,
    N,
    A,
    Z,
    QuestionWithWishes,
    Question,
}

impl Shape {
    // In the table's order.
    pub const ALL: [Shape; 11] = [
        Shape::T,
        Shape::E,
        Shape::R,
        Shape::O,
        Shape::D,
        Shape::M,
        Shape::N,
        Shape::A,
        Shape::Z,
        Shape::QuestionWithWishes,
        Shape::Question,
    ];

    // The letter of a row.
    #[tactic(auto, unfolding(crate::specs::Table::row_of))]
    pub fn letter(self) -> u8
        ensures { result ≡ letter_byte (row_of self).letter }
    {
        match self {
            Shape::T => b'T',
            Shape::E => b'E',
            Shape::R => b'R',
            Shape::O => b'O',
            Shape::D => b'D',
            Shape::M => b'M',
            Shape::N => b'N',
            Shape::A => b'A',
            Shape::Z => b'Z',
            Shape::QuestionWithWishes => b'Q',
            Shape::Question => b'Q',
        }
    }

    // The fields after a row's letter.
    #[tactic(auto, unfolding(crate::specs::Table::forms_of))]
    pub fn fields(self) -> &'static [Field]
        ensures forms { map field_of result.now ≡ forms_of self }
        ensures few { length result.now ≤ 15 }
    {
        match self {
            Shape::T => &FIELDS_T,
            Shape::E => &FIELDS_E,
            Shape::R => &FIELDS_R,
            Shape::O => &FIELDS_O,
            Shape::D => &FIELDS_D,
            Shape::M => &FIELDS_M,
            Shape::N => &FIELDS_M,
            Shape::A => &FIELDS_A,
            Shape::Z => &FIELDS_A,
            Shape::QuestionWithWishes => &FIELDS_Q,
            Shape::Question => &FIELDS_Q[..WITHOUT_WISHES],
        }
    }
}
