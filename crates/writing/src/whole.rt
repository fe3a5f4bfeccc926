// A line from a row of the table of shapes and the numbers of its fields.
ghost use Rattle.std.specs.Prelude.{◌≡◌};
ghost use Rattle.meaning.specs.Writing.{written};
ghost use Rattle.shapes.specs.Table.{row_of};
ghost use Rattle.shapes.specs.Numbered.{shape_at};
ghost use Rattle.writing.specs.Written.{written_as};

use crate::bytes::Written;
use shapes::Shape;

// The line that the meaning writes of a row and any numbers: as many fields as the row and the numbers both have. Bytes
// past the space are left out. Not by `write!`, which takes text: the meaning writes bytes, of numbers that need not be
// letters, and the contract follows it field by field.
pub fn write_line(shape: Shape, numbers: &[u32]) -> Written
    ensures { result ≡ written_as (written (row_of shape) numbers.now) }
{
    let fields = shape.fields();
    let mut line = Written::new();
    line.push(shape.letter());
    for (&field, &n) in fields.iter().zip(numbers) {
        line.push_field(field, n);
    }
    line
}

// The same of a row by its number; past the table the shorter Q.
pub fn write_row(shape: u8, numbers: &[u32]) -> Written
    ensures { result ≡ written_as (written (shape_at shape) numbers.now) }
{
    write_line(Shape::from(shape), numbers)
}
