// The pre-check's entry: a lent book is emptied, and a line is submitted to it. Nothing is required of the bytes of
// either.
#![tactic(auto)]

ghost use Rattle.book.specs.Emptied.{Emptied};
ghost use Rattle.precheck.specs.Promise.{Submitted};

use answering::answer;
use meaning::{Answer, Refusal, Sent};
use soundness::is_sound;

// Makes a book of no records from lent space of the exact size; other sizes get 1 and stay untouched.
pub fn empty(book: &mut [u8]) -> Result<(), Refusal>
    ensures { Emptied book.old book.new result }
{
    book::empty(book)
}

// The answer to a line over a lent book; an accepted edit is stored in it.
pub fn submit(book: &mut [u8], line: &[u8]) -> Answer
    ensures { Submitted book.old line.now result book.new }
{
    let sound = is_sound(book);
    answer(book, line, sound, Sent::Alone)
}
