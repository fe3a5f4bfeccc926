// What is answered to a line over a book of which it is known whether it is sound. `precheck::submit` finds that out
// for each line, `lines` once for many, `batches` once for a batch.
#![tactic(auto)]

ghost use Rattle.std.specs.Prelude.{◌≡◌};
ghost use Rattle.meaning.specs.Lone.{elsewhere};
ghost use Rattle.answering.specs.Taking.{as_answer, Took, Answers};

use commands::{Command, What, command_of, is_wrong};
use edits::edit;
use judge::judge;
use line::read_line;
use meaning::{Answer, Refusal, Sent};
use refusals::refusal;
use status::answer_to;

// What a command does to a book: the first refusal that holds is given, and the book stays; else a question is
// answered, with the status where it carries the wishes, and nothing is stored; any other command is stored and gets K.
fn take(book: &mut [u8], c: Command) -> Result<Answer, Refusal>
    ensures { Took book.old c (as_answer result) book.new }
{
    if let Some(refusal) = refusal(book, c) {
        return Err(refusal);
    }
    if let What::Ask(q, wishes) = c.what {
        return Ok(answer_to(judge(book, q), wishes));
    }
    edit(book, c);
    Ok(Answer::Taken)
}

// Whether a line of a depository, sent so, names another depository than its batch.
fn is_elsewhere(sent: Sent, csd: u8) -> bool
    ensures { result ≡ elsewhere sent csd }
{
    match sent {
        Sent::Alone => false,
        Sent::InBatch(c) => csd != c,
    }
}

// The answer to a line, or the first refusal that holds.
fn try_answer(book: &mut [u8], line: &[u8], sound: bool, sent: Sent) -> Result<Answer, Refusal>
    ensures { Answers sent sound book.old line.now (as_answer result) book.new }
{
    if !sound {
        return Err(Refusal::UnsoundBook);
    }
    let l = read_line(line)?;
    let c = command_of(l.letter, l.values);
    if is_wrong(c) {
        return Err(Refusal::BadField);
    }
    if is_elsewhere(sent, c.csd) {
        return Err(Refusal::OtherDepository);
    }
    take(book, c)
}

// The answer to a line, sent alone or in a batch, over a lent book that was found to be sound, or not to be; an
// accepted edit is stored in it.
// Book and `sound` stay two parameters, here and in `lines` and `batches`: a desk keeps `sound` from piece to piece
// while its caller lends the book anew, so a struct of both would be made anew at each step and lent to each line.
pub fn answer(book: &mut [u8], line: &[u8], sound: bool, sent: Sent) -> Answer
    ensures { Answers sent sound book.old line.now result book.new }
{
    try_answer(book, line, sound, sent).unwrap_or_else(Answer::Refused)
}
