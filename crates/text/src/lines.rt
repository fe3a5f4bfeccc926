// Parts a text into lines.
ghost use Rattle.text.specs.Parts.{Splits};

use fields::find;

// The line that begins at an index: where it ends, and where the next one begins. Indices, since `lines` says by one
// how far it came in the text; `batches` makes its iterator over lines of them.
#[derive(Clone, Copy)]
pub struct Span {
    pub end: usize,
    pub next: usize,
}

// Each line is ended by byte 10 or the end of the text, and no line follows a final byte 10.
pub fn next_line(text: &[u8], at: usize) -> Span
    ensures { Splits text.now at result }
{
    let end = find(text, at, b'\n');
    let next = if end < text.len() { end + 1 } else { end };
    Span { end, next }
}
