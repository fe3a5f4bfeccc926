// A text of lines that comes in pieces: its ended lines are answered one by one over a lent book, and the line that is
// begun is kept for the next piece.
#![tactic(auto)]

ghost use Rattle.std.specs.Prelude.{◌≡◌, ◌+◌, ◌*◌, ◌≤◌, leb, length};
ghost use Rattle.lines.specs.Many.{Put, Turn, AnsweredBy, Answered};
ghost use Rattle.lines.specs.Sent.{SentLines};
ghost use Rattle.lines.specs.Keeping.{Keeps};
ghost use Rattle.lines.specs.Pieces.{at_first, Piece, End};

use answering::answer;
use meaning::{Answer, Sent};
use soundness::is_sound;
use text::{next_line, print};

// An answer has at most so many bytes with its byte 10.
pub const ANSWER_BYTES: usize = 33;

// Of a line that is begun so many bytes are kept, since a line over 80 bytes is refused whatever follows.
const KEPT_BYTES: usize = 81;

// How many bytes of a text were read, and how many of the answer space are written.
#[derive(Clone, Copy)]
pub struct Progress {
    pub read: usize,
    pub written: usize,
}

// What a desk knows between two pieces: how many bytes of the begun line stand at the front of its text space, and
// whether its book is sound.
#[derive(Clone, Copy)]
pub struct Desk {
    pub held: usize,
    pub sound: bool,
}

// A step of a desk: the desk after it, and how many bytes of the answer space are written.
#[derive(Clone, Copy)]
pub struct Step {
    pub desk: Desk,
    pub written: usize,
}

// The answers stand one behind the other in a space that the caller lends, since there is no heap. So the functions
// take it with the index up to which it is written, which is answered too; with the part from there on, each caller
// would add what stands in front. `batches` has functions of these names that fill 32 bytes instead: they share
// `answer` and `print`, and one function for both forms of an answer would take the form as a closure and be no
// plainer. Book, text and answer space are three lent slices and no struct: callers lend them from arrays of their own,
// and a struct would be taken apart again in each function.

// Whether an answer of any length fits from an index on.
fn has_room(out: &[u8], at: usize) -> bool
    ensures { result ≡ leb (at + 33) (length out.now) }
{
    out.len().saturating_sub(at) >= ANSWER_BYTES
}

// Writes an answer to an index, ended by byte 10, and returns where the next one goes.
fn put_answer(out: &mut [u8], at: usize, a: Answer) -> usize
    requires { at + 33 ≤ length out.old }
    ensures { Put out.old at a result out.new }
{
    let p = print(a);
    let bytes = p.as_slice();
    let end = at + bytes.len();
    out[at..end].copy_from_slice(bytes);
    out[end] = b'\n';
    end + 1
}

// Answers a line over a book that was found to be sound, or not to be, and writes the answer to an index.
fn answer_line(book: &mut [u8], line: &[u8], sound: bool, out: &mut [u8], at: usize) -> usize
    requires { at + 33 ≤ length out.old }
    ensures { Turn sound book.old line.now out.old at result book.new out.new }
{
    let a = answer(book, line, sound, Sent::Alone);
    put_answer(out, at, a)
}

// Answers the ended lines of a text one by one over a book that was found to be sound, or not to be, and writes the
// answers into a lent space. It stops where an answer might not fit, and says how far it came: since text and answers
// go on by different steps, an iterator over the lines would need both numbers beside it.
fn answer_lines(book: &mut [u8], text: &[u8], sound: bool, out: &mut [u8]) -> Progress
    ensures { AnsweredBy sound book.old text.now out.old result book.new out.new }
{
    let mut read: usize = 0;
    let mut written: usize = 0;
    while has_room(out, written) {
        let line = next_line(text, read);
        let end = line.end;
        if end >= text.len() {
            return Progress { read, written };
        }
        written = answer_line(book, &text[read..end], sound, out, written);
        read = line.next;
    }
    Progress { read, written }
}

// Answers the ended lines of a text one by one, as `submit` does, and writes the answers into a lent space. Whether the
// book is sound is found once: an accepted edit leaves it sound. `precheck::submit` does so for one line; what they
// share is one call.
pub fn submit_lines(book: &mut [u8], text: &[u8], out: &mut [u8]) -> Progress
    ensures exactly { Answered book.old text.now out.old result book.new out.new }
    ensures meaning { SentLines book.old text.now out.old result book.new out.new }
{
    let sound = is_sound(book);
    answer_lines(book, text, sound, out)
}

// ---- the begun line

// Moves the bytes from an index up to another to the front of a text and returns how many they are: the line that is
// begun, which goes on with what is read next. Of more than 81 bytes it keeps 81. The whole text is lent, as its front
// is written and its part read.
fn keep(text: &mut [u8], from: usize, to: usize) -> usize
    ensures { Keeps text.old from to result text.new }
{
    let len = text.len();
    let from = from.min(len);
    let n = to.min(len).saturating_sub(from).min(KEPT_BYTES);
    text.copy_within(from..from + n, 0);
    n
}

// ---- a desk

// Whether the answers to a text of n bytes fit: 33 bytes for each. The n is no place in the answer space.
fn has_room_for(out: &[u8], n: usize) -> bool
    ensures { result ≡ leb (33 * n) (length out.now) }
{
    n <= out.len() / ANSWER_BYTES
}

// A step is None where the answer space is too small for it; then nothing was done.
impl Desk {
    // A desk before the first piece.
    pub fn begin(book: &[u8]) -> Desk
        ensures { result ≡ at_first book.now }
    {
        Desk {
            held: 0,
            sound: is_sound(book),
        }
    }

    // A piece came behind the bytes that the desk holds: the lines that are ended now are answered, and the line that
    // is begun is kept at the front of the text.
    pub fn answer_piece(
        self,
        came: usize,
        book: &mut [u8],
        text: &mut [u8],
        out: &mut [u8],
    ) -> Option<Step>
        ensures { Piece self came book.old text.old out.old result book.new text.new out.new }
    {
        let n = self.held.saturating_add(came).min(text.len());
        if !has_room_for(out, n) {
            return None;
        }
        let sound = self.sound;
        let p = answer_lines(book, &text[..n], sound, out);
        let held = keep(text, p.read, n);
        Some(Step {
            desk: Desk { held, sound },
            written: p.written,
        })
    }

    // The end of input: the line that is begun is answered, if there is one.
    pub fn answer_end(self, book: &mut [u8], text: &[u8], out: &mut [u8]) -> Option<Step>
        ensures { End self book.old text.now out.old result book.new out.new }
    {
        let n = self.held.min(text.len());
        if !has_room_for(out, n) {
            return None;
        }
        let sound = self.sound;
        let desk = Desk { sound, held: 0 };
        if n == 0 {
            return Some(Step { desk, written: 0 });
        }
        let written = answer_line(book, &text[..n], sound, out, 0);
        Some(Step { desk, written })
    }
}
