// A batch: the lines of a text from one depository, answered one by one over a lent book, each answer in a space of its
// own.
#![tactic(auto)]

ghost use Rattle.std.specs.Prelude.{◌≡◌, ◌+◌, ◌*◌, ◌≤◌, min, length};
ghost use Rattle.meaning.specs.Desk.{lines_of};
ghost use Rattle.meaning.specs.Batch.{width, most, fits};
ghost use Rattle.precheck.specs.Batch.{Batched};
ghost use Rattle.batches.specs.Taken.{Put, Turn, TakenBy, TakenIn, Taken};

use answering::answer;
use meaning::{Answer, Refusal, Sent};
use soundness::is_sound;
use text::{next_line, print};

// A batch has at most so many lines.
pub const MOST: usize = 64;

// An answer has so many bytes of the answer space.
pub const WIDTH: usize = 32;

// A lent text, and the index in it where the next line begins. By hand and not by `split`, which gives one line more,
// an empty one, after a final byte 10 and of an empty text.
#[derive(Drop)]
struct Lines<'a> {
    text: &'a [u8],
    at: usize,
}

impl<'a> Lines<'a> {
    fn new(text: &'a [u8]) -> Lines<'a>
        ensures { (result.text ≡ text.entry) × (result.at ≡ 0) }
    {
        Lines { text, at: 0 }
    }
}

// The lines of the text, one after the other.
impl<'a> Iterator for Lines<'a> {
    ghost use Rattle.std.specs.Iterator.{YieldsFirstRef, item_count};
    ghost use Rattle.batches.specs.Left.{lines_left};

    type Item = &'a [u8];

    ghost next_gives = { YieldsFirstRef lines_left };

    ghost remaining = { item_count lines_left };

    fn next(&mut self) -> Option<&'a [u8]> {
        if self.at >= self.text.len() {
            return None;
        }
        let start = self.at;
        let line = next_line(self.text, start);
        self.at = line.next;
        Some(&self.text[start..line.end])
    }
}

// How many lines a text has; of more than 64 the first 65 are counted.
fn count_lines(text: &[u8]) -> usize
    ensures { result ≡ min (most + 1) (length (lines_of text.now)) }
{
    Lines::new(text).take(MOST + 1).count()
}

// Whether so many lines are a batch, and an answer space of so many bytes takes their answers.
#[tactic(auto, unfolding(meaning::specs::Batch::fits))]
fn has_room(n: usize, space: usize) -> bool
    ensures { result ≡ fits n space }
{
    n <= MOST && WIDTH * n <= space
}

// The answer space goes with an index: behind a loop over `chunks_mut` a proof knows none of its bytes. `lines` has
// functions of these names that end an answer by byte 10; a line there says why they are apart.

// Writes an answer to an index of the answer space, zeros behind it.
fn put_answer(out: &mut [u8], at: usize, a: Answer)
    requires { at + width ≤ length out.old }
    ensures { Put out.old at a out.new }
{
    let p = print(a);
    let bytes = p.as_slice();
    let end = at + bytes.len();
    out[at..end].copy_from_slice(bytes);
    out[end..WIDTH + at].fill(0);
}

// Answers a line, sent so, over a book that was found to be sound, or not to be, writes the answer to an index and
// returns where the next one goes.
fn answer_line(
    book: &mut [u8],
    line: &[u8],
    sound: bool,
    sent: Sent,
    out: &mut [u8],
    at: usize,
) -> usize
    requires { at + width ≤ length out.old }
    ensures { Turn sent sound book.old line.now out.old at result book.new out.new }
{
    let a = answer(book, line, sound, sent);
    put_answer(out, at, a);
    at + WIDTH
}

// Answers the lines of a text, each sent so, one by one over a book that was found to be sound, or not to be, whatever
// the answers to the lines before.
fn answer_each(book: &mut [u8], text: &[u8], sound: bool, sent: Sent, out: &mut [u8])
    requires { width * length (lines_of text.now) ≤ length out.old }
    ensures { TakenBy sent sound book.old text.now out.old book.new out.new }
{
    let mut at: usize = 0;
    for line in Lines::new(text) {
        at = answer_line(book, line, sound, sent, out, at);
    }
}

// Answers the lines of a batch of a depository. Whether the book is sound is found once: an accepted edit leaves it
// sound.
fn answer_batch(book: &mut [u8], csd: u8, text: &[u8], out: &mut [u8])
    requires { width * length (lines_of text.now) ≤ length out.old }
    ensures { TakenIn csd book.old text.now out.old book.new out.new }
{
    let sound = is_sound(book);
    answer_each(book, text, sound, Sent::InBatch(csd), out)
}

// A batch of a depository: the lines of a text, parted as at the desk, are answered in order, each as if it was sent
// alone but for 12, and answer i stands in the answer space at byte 32 * i. Over 64 lines, or an answer space under 32
// bytes a line, gets 11 before anything else, and then nothing is taken or written.
pub fn submit_batch(
    book: &mut [u8],
    csd: u8,
    text: &[u8],
    answers: &mut [u8],
) -> Result<usize, Refusal>
    ensures exactly { Taken book.old csd text.now answers.old result book.new answers.new }
    ensures meaning { Batched book.old csd text.now answers.old result book.new answers.new }
{
    let n = count_lines(text);
    if !has_room(n, answers.len()) {
        return Err(Refusal::BatchTooLarge);
    }
    answer_batch(book, csd, text, answers);
    Ok(n)
}
