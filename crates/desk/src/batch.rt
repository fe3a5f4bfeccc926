// 'batch CSD FILE': a file is read whole and sent as one batch of a depository to an emptied book (request a).
ghost use Rattle.std.specs.Prelude.{◌≤◌, length, IfOk};

use crate::{Failure, Source, argument, failed, file_name, write_line, wrong};
use batches::{MOST, WIDTH, submit_batch};
use marks::blank;
use meaning::{Answer, Refusal};
use places::SIZE;
use std::env::Env;
use std::fs::File;
use std::io;
use std::io::Read;
use std::rt::Files;

// ---- The text. A file that has more bytes is not sent.

const TEXT: usize = 1048576;

// Reads up to the end of input. Not by `read_full`, which asks once more where no space is left: a reader may fail at
// that, and its failure would be told in place of the text's size.
fn read_whole<R: Read>(
    rt: &impl Eprint,
    source: &mut Source<R>,
    text: &mut [u8],
) -> Result<usize, Failure>
    ensures { IfOk result (λ n. n ≤ length text.new) }
{
    let mut held: usize = 0;
    while held < text.len() {
        let came = source.read_behind(rt, text, held)?;
        if came == 0 {
            return Ok(held);
        }
        held += came;
    }
    Err(failed(rt, "batch", "the file has more than 1048575 bytes"))
}

// ---- The answers, each printed as a line.

// The answer in its bytes of the answer space, which zeros fill behind it.
fn print_answer(rt: &(impl Print + Eprint), space: &[u8]) -> Result<(), Failure> {
    let n = space.iter().position(|byte| *byte == 0);
    write_line(rt, &space[..n.unwrap_or(space.len())])
}

fn print_answers(rt: &(impl Print + Eprint), count: usize, answers: &[u8]) -> Result<(), Failure> {
    for answer in answers.chunks(WIDTH).take(count) {
        print_answer(rt, answer)?;
    }
    Ok(())
}

fn print_refusal(rt: &(impl Print + Eprint), refusal: Refusal) -> Result<(), Failure> {
    write_line(rt, text::print(Answer::Refused(refusal)).as_slice())
}

// ---- A batch

fn send(rt: &(impl Print + Eprint), csd: u8, text: &[u8]) -> Result<(), Failure> {
    let mut book: [u8; SIZE] = blank();
    // A book of the exact size is never refused.
    let _ = precheck::empty(&mut book);
    let mut answers = [0u8; MOST * WIDTH];
    match submit_batch(&mut book, csd, text, &mut answers) {
        Ok(count) => print_answers(rt, count, &answers),
        Err(refusal) => print_refusal(rt, refusal),
    }
}

fn send_input<R: Read + Drop>(
    rt: &(impl Print + Eprint),
    csd: u8,
    mut source: Source<R>,
) -> Result<(), Failure> {
    let mut text: [u8; TEXT] = blank();
    let n = read_whole(rt, &mut source, &mut text)?;
    send(rt, csd, &text[..n])
}

// Sends a file, or standard input for '-'. A file and standard input are readers of two types, so what is done with a
// reader is a function over either, here and in `answer_file`.
fn send_file<R: Files + io::Input + Print + Eprint>(
    rt: &R,
    csd: u8,
    path: &str,
) -> Result<(), Failure> {
    if path == "-" {
        let reader = rt.reader();
        let name = "standard input";
        return send_input(rt, csd, Source { reader, name });
    }
    match File::open(rt, path) {
        Ok(reader) => send_input(rt, csd, Source { reader, name: path }),
        Err(why) => Err(failed(rt, path, why)),
    }
}

// ---- The arguments

// A number of at most four digits; `parse` alone takes a sign too. A batch of a number that is no depository is sent:
// its lines name another.
fn csd_argument(rt: &impl Env) -> Option<u8> {
    let mut space = [0u8; 4];
    let word = argument(rt, 2, &mut space);
    if word.starts_with('+') {
        return None;
    }
    word.parse().ok()
}

pub(crate) fn answer_batch<R: Env + Files + io::Input + Print + Eprint>(
    rt: &R,
) -> Result<(), Failure> {
    let mut space = [0u8; 4096];
    match csd_argument(rt) {
        Some(csd) => send_file(rt, csd, file_name(rt, 3, &mut space)?),
        None => Err(wrong(rt, "precheck: batch: CSD is a number up to 255\n")),
    }
}
