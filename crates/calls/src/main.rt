// Answers calls (vectors/CALLS.md), so that every step of the pre-check is tried as a caller uses it: with lent answer
// space of any size, and with a book that is one byte short. The calls stand in the files that are named, each over a
// book of its own, or in standard input where none is. Each kind of call has a function of its own, named for its
// letter in `answer_call`. tools/calls_vectors.py writes what the gate runs it on and what it must write.
#![tactic(auto)]

mod reading;
mod showing;

ghost use Rattle.std.specs.Prelude.{◌≤◌, length};

use batches::submit_batch;
use marks::blank;
use places::SIZE;
use reading::{behind_blank, decode, number};
use showing::{show, show_batch, show_emptied, show_space, show_unknown};
use std::env::{Env, FillError};
use std::fmt::Display;
use std::fs::File;
use std::io;
use std::io::Read;
use std::rt::Files;

// The longest call with its byte 10. A longer one ends the work, and is named on standard error.
const CALL: usize = 1048576;

// The most answer space that is lent, whatever a call's SIZE: no step writes behind it, or asks for more.
const LENT: usize = 65536;

// What a call is answered in: the text that it stands for, and the answer space that a batch is lent. The book stands
// beside it in each function below, since after 'x ' a call is lent a part of it; a struct of all three would carry how
// large that part is, and each method cut it anew. A call and where answers go are apart from both.
#[derive(Drop)]
struct Spaces {
    text: [u8; CALL],
    answers: [u8; LENT],
}

impl Spaces {
    fn new() -> Spaces {
        Spaces {
            text: blank(),
            answers: blank(),
        }
    }
}

// ---- The kinds of call. Each writes its answer.

// l TEXT: a line, sent singly.
fn single_line(rt: &impl Print, book: &mut [u8], call: &[u8], spaces: &mut Spaces) {
    let n = decode(behind_blank(call), &mut spaces.text);
    show(rt, precheck::submit(book, &spaces.text[..n]))
}

// Sends a batch, whose answer space is filled with # first.
fn send(rt: &impl Print, book: &mut [u8], csd: u8, text: &[u8], answers: &mut [u8], size: u32) {
    let n = (size as usize).min(answers.len());
    let space = &mut answers[..n];
    space.fill(b'#');
    let answered = submit_batch(book, csd, text, space);
    show_batch(rt, answered);
    show_space(rt, space)
}

// b CSD SIZE TEXT: a batch. A CSD above 255 is 255, which is none too.
fn batch(rt: &impl Print, book: &mut [u8], call: &[u8], spaces: &mut Spaces) {
    let (csd, call) = number(behind_blank(call));
    let (size, call) = number(behind_blank(call));
    let csd = u8::try_from(csd).unwrap_or(u8::MAX);
    let n = decode(behind_blank(call), &mut spaces.text);
    let text = &spaces.text[..n];
    send(rt, book, csd, text, &mut spaces.answers, size)
}

// e: empties the book. A match on the letter: each kind of call has other arguments behind it.
fn answer_call(rt: &impl Print, book: &mut [u8], call: &[u8], spaces: &mut Spaces) {
    match call {
        [b'e', ..] => show_emptied(rt, precheck::empty(book)),
        [b'l', rest @ ..] => single_line(rt, book, rest, spaces),
        [b'b', rest @ ..] => batch(rt, book, rest, spaces),
        _ => show_unknown(rt),
    }
}

// A call that is sent, perhaps with 'x ' before it: for that call the lent book is one byte short.
fn answer_sent(rt: &impl Print, book: &mut [u8], call: &[u8], spaces: &mut Spaces) {
    match call {
        [b'x', b' ', rest @ ..] => {
            let n = book.len().saturating_sub(1);
            answer_call(rt, &mut book[..n], rest, spaces)
        }
        _ => answer_call(rt, book, call, spaces),
    }
}

// ---- Calls are read in pieces; those that are ended are answered before more is waited for.

// Answers the ended calls, and returns where the one begins that is not ended. `book_main` parts its text so too: a
// function for the part before the last byte 10 would save a line in each, and each would still part it.
fn answer_calls(rt: &impl Print, book: &mut [u8], calls: &[u8], spaces: &mut Spaces) -> usize
    ensures { result ≤ length calls.now }
{
    let Some(last) = calls.iter().rposition(|byte| *byte == b'\n') else {
        return 0;
    };
    for call in calls[..last].split(|byte| *byte == b'\n') {
        answer_sent(rt, book, call, spaces);
    }
    last + 1
}

// Of the bytes up to an index the calls that are ended are answered; the one that is begun is moved to the front, and
// its length returned.
fn answer_piece(
    rt: &impl Print,
    book: &mut [u8],
    calls: &mut [u8],
    to: usize,
    spaces: &mut Spaces,
) -> usize
    requires { to ≤ length calls.old }
    ensures { result ≤ length calls.new }
{
    let begun = answer_calls(rt, book, &calls[..to], spaces);
    calls.copy_within(begun..to, 0);
    to - begun
}

// The end of input ends a call too. The whole space is lent, as a call that fills it is too long.
fn answer_end(
    rt: &(impl Print + Eprint),
    book: &mut [u8],
    calls: &[u8],
    held: usize,
    spaces: &mut Spaces,
)
    requires { held ≤ length calls.now }
{
    if held == calls.len() {
        let _ = eprintln!(rt; "calls: a call is longer than 1048575 bytes");
        return;
    }
    if held > 0 {
        answer_sent(rt, book, &calls[..held], spaces);
    }
}

// Answers until the end of input, or until reading fails: a failure is named before the call that is begun is answered.
// A proved loop has to end, so it counts its turns up to a number that no input uses up.
fn answer_all<R: Read>(
    rt: &(impl Print + Eprint),
    input: &mut R,
    name: &str,
    book: &mut [u8],
    calls: &mut [u8],
    spaces: &mut Spaces,
) {
    let mut held: usize = 0;
    for _ in 0..u64::MAX {
        match input.read(&mut calls[held..]) {
            Ok(0) => return answer_end(rt, book, calls, held, spaces),
            Ok(came) => held = answer_piece(rt, book, calls, held + came, spaces),
            Err(why) => {
                failed(rt, name, why);
                return answer_end(rt, book, calls, held, spaces);
            }
        }
    }
}

fn answer_input<R: Read>(rt: &(impl Print + Eprint), input: &mut R, name: &str) {
    let mut book: [u8; SIZE] = blank();
    let mut calls: [u8; CALL] = blank();
    let mut spaces = Spaces::new();
    answer_all(rt, input, name, &mut book, &mut calls, &mut spaces);
}

// ---- The files.

// Names what could not be read. The desk's words begin with its name; a crate for one line would be no plainer.
fn failed<D: Display + Drop>(rt: &impl Eprint, what: &str, why: D) {
    let _ = eprintln!(rt; "{what}: {why}");
}

fn answer_file<R: Files + Print + Eprint>(rt: &R, path: &str) -> io::Result<()> {
    let mut file = File::open(rt, path)?;
    answer_input(rt, &mut file, path);
    Ok(())
}

// Answers the file that is named.
fn answer_named<R: Files + Print + Eprint>(rt: &R, path: &str) {
    if let Err(why) = answer_file(rt, path) {
        failed(rt, path, why);
    }
}

// Answers the file that an argument names. A match, as the name may be too long or no text, and each failure is told.
// This and `is_given` are not shared with the desk: a line at its `argument_count` says why.
fn answer_argument<R: Env + Files + Print + Eprint>(rt: &R, i: usize) {
    let mut space = [0u8; 4096];
    match rt.arg(i, &mut space) {
        Ok(n) => match std::str::from_utf8(&space[..n]) {
            Ok(path) => answer_named(rt, path),
            Err(why) => failed(rt, "the name of a file", why),
        },
        Err(_) => failed(rt, "the name of a file", "File name too long"),
    }
}

// Whether the program was started with an argument at an index.
fn is_given(rt: &impl Env, i: usize) -> bool {
    let mut space = [0u8; 1];
    match rt.arg(i, &mut space) {
        Ok(_) | Err(FillError::TooLong) => true,
        Err(FillError::NotPresent) => false,
    }
}

fn main(rt: HostRuntime) {
    if !is_given(&rt, 1) {
        return answer_input(&rt, &mut rt.reader(), "standard input");
    }
    for i in 1..usize::MAX {
        if !is_given(&rt, i) {
            return;
        }
        answer_argument(&rt, i);
    }
}
