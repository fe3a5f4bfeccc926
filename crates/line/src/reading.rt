// Reads a line of bytes: refusals 2 to 5, or its letter and the numbers of its fields (document 01, 'Lines' and the
// refusals).
ghost use Rattle.std.specs.Prelude.{◌≡◌, [], ◌∷◌, drop, Some};
ghost use Rattle.std.specs.Option.{option_map};
ghost use Rattle.tables.specs.Count.{has, every};
ghost use Rattle.meaning.specs.Fields.{within, allowed, well_made, fields};
ghost use Rattle.meaning.specs.Forms.{shapes, has_letter, first_shape};
ghost use Rattle.meaning.specs.Reading.{read_all, by_fields, by_shape, numbers_read};
ghost use Rattle.fields.specs.Cut.{more};
ghost use Rattle.shapes.specs.Table.{forms_of, row_of};
ghost use Rattle.line.specs.Line.{as_shape, in_row, line_of};

use crate::allowed;
use crate::forms::field_value;
use basics::byte_at;
use fields::{LineReader, find};
use meaning::Refusal;
use shapes::Shape;

// ---- the row of the table of shapes

// Whether a row has that letter.
fn is_letter(letter: u8, shape: Shape) -> bool
    ensures { result ≡ has_letter (letter ∷ []) (row_of shape) }
{
    letter == shape.letter()
}

// Whether a row has that letter and that many fields after it.
fn is_shape(letter: u8, count: usize, shape: Shape) -> bool
    ensures { result ≡ as_shape letter count (row_of shape) }
{
    is_letter(letter, shape) && count == shape.fields().len()
}

// Whether any row has that letter.
fn has_letter(letter: u8) -> bool
    ensures { result ≡ has (has_letter (letter ∷ [])) shapes }
{
    Shape::ALL.iter().any(|&shape| is_letter(letter, shape))
}

// The first row with that letter and that many fields after it.
fn first_shape(letter: u8, count: usize) -> Option<Shape>
    ensures { option_map row_of result ≡ first_shape (as_shape letter count) shapes }
{
    Shape::ALL
        .iter()
        .find(|&&shape| is_shape(letter, count, shape))
        .copied()
}

// ---- a line

// A line that is read: the letter, as its byte; the numbers of the fields after it, and zeros after them. Numbers by
// value in a row of fixed length, as document 01 has no heap in the pre-check and the meaning pads them to sixteen. The
// letter and not the `Shape`, as `command_of` takes any letter: with a `Shape` it would ask more of its callers.
#[derive(Clone, Copy, Debug, PartialEq, Eq)]
pub struct Line {
    pub letter: u8,
    pub values: [u32; 16],
}

// The numbers of the fields after a comma, if each is of its form.
fn read_values(line: &[u8], shape: Shape, comma: usize) -> Option<[u32; 16]>
    ensures { result ≡ in_row (read_all (forms_of shape) (more (drop comma line.now))) }
{
    let fields = shape.fields();
    let mut reader = LineReader::new(line, comma);
    let mut values = [0; 16];
    for (k, &field) in fields.iter().enumerate() {
        values[k] = field_value(reader.next()?, field)?;
    }
    Some(values)
}

// 5: a field is outside its form or range. The whole line is lent, as its reader takes it with an index.
fn by_shape(line: &[u8], comma: usize, shape: Shape) -> Result<Line, Refusal>
    ensures { result ≡ line_of (by_shape (Some (row_of shape)) (more (drop comma line.now))) }
{
    let letter = shape.letter();
    let values = read_values(line, shape, comma).ok_or(Refusal::BadField)?;
    Ok(Line { letter, values })
}

// 3: the first field isn't a letter of the table; 4: no row has the letter and that many fields. A letter is one byte.
fn by_fields(line: &[u8]) -> Result<Line, Refusal>
    ensures { result ≡ line_of (by_fields (fields line.now)) }
{
    let comma = find(line, 0, b',');
    let letter = byte_at(line, 0);
    if comma != 1 || !has_letter(letter) {
        return Err(Refusal::NoLetter);
    }
    let count = LineReader::new(line, comma).count();
    let shape = first_shape(letter, count).ok_or(Refusal::FieldCount)?;
    by_shape(line, comma, shape)
}

// A line has 1 to 80 bytes. The range has a name, as the proof of `well_made` cites it.
fn is_length(len: usize) -> bool
    ensures { result ≡ within 1 80 len }
{
    (1..=80).contains(&len)
}

// Whether each byte is allowed. A loop, and not `all`, which ends at the first that is not: nearly every line has none,
// and by `all` a line of 80 bytes that is refused 2 to 4 took 1.4 to 2.2 times as long.
fn all_allowed(line: &[u8]) -> bool
    ensures { result ≡ every allowed line.now }
{
    let mut good = true;
    for &c in line {
        good &= allowed(c);
    }
    good
}

// 1 to 80 bytes, each allowed. The length comes first, so that no more than 80 bytes are looked at.
fn well_made(line: &[u8]) -> bool
    ensures { result ≡ well_made line.now }
{
    is_length(line.len()) && all_allowed(line)
}

// Refusals 2 to 5, or the letter and the numbers. Whether the numbers together are wrong (5 too) is not tested here.
pub fn read_line(line: &[u8]) -> Result<Line, Refusal>
    ensures { result ≡ line_of (numbers_read line.now) }
{
    if !well_made(line) {
        return Err(Refusal::BadLine);
    }
    by_fields(line)
}
