// A field by its form: what the meaning's `write` says, for any number.
ghost use Rattle.std.specs.Prelude.{◌-◌, ◌≡◌, [], ◌∷◌, get_or, map};
ghost use Rattle.meaning.specs.Writing.{write};
ghost use Rattle.shapes.specs.Table.{plain_form, field_of};
ghost use Rattle.shapes.specs.Numbered.{form_at};
ghost use Rattle.writing.specs.Written.{added_all};

use crate::bytes::Written;
use shapes::{Field, Form};

impl Written {
    // One of a few words by its place, from 1 on: the first for 0 too, and none past the last.
    fn push_word(&mut self, n: u32, words: &[&[u8]])
        ensures { self.new ≡ added_all self.old (get_or (map (λ w. w.now) words.now) (n - 1) []) }
    {
        let i = n.saturating_sub(1) as usize;
        if let Some(word) = words.get(i) {
            self.push_text(word);
        }
    }

    // A field that is not empty. The letters of a number are its lowest bytes, the last letter the lowest.
    fn push_plain(&mut self, form: Form, n: u32)
        ensures { self.new ≡ added_all self.old (write (plain_form form) n) }
    {
        match form {
            Form::Csd
            | Form::TypeNumber
            | Form::Object
            | Form::Processing
            | Form::Sequence
            | Form::Criteria
            | Form::Number
            | Form::PartyType
            | Form::Day
            | Form::Code => self.push_number(n),
            Form::Sign | Form::Kind | Form::Movement | Form::Payment | Form::Wish => {
                self.push_word(n, form.words())
            }
            Form::Transaction => self.push_text(&n.to_be_bytes()),
            Form::Currency => self.push_text(&n.to_be_bytes()[1..]),
        }
    }

    // A comma and the field that gives the number; a field that may be empty is empty for 0.
    pub fn push_field(&mut self, field: Field, n: u32)
        ensures { self.new ≡ added_all self.old (44 ∷ write (field_of field) n) }
    {
        self.push(b',');
        match field {
            Field::Filled(form) => self.push_plain(form, n),
            Field::Optional(form) => {
                if n != 0 {
                    self.push_plain(form, n);
                }
            }
        }
    }

    // The same of a field by the number of its form.
    pub fn push_form(&mut self, form: u8, n: u32)
        ensures { self.new ≡ added_all self.old (44 ∷ write (form_at form) n) }
    {
        self.push_field(Field::from(form), n);
    }
}
