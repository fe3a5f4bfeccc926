// Submits each line of standard input to a book that starts emptied, and writes the answers: document 01's example, the
// marked questions, and the exercise of docs/PROOF.md. tools/precheck_vectors.py writes what it reads and must write.
#![tactic(auto)]

use input::read_full;
use marks::blank;
use meaning::Answer;
use places::SIZE;
use std::io;

// `line_main` and `calls` have two lines like these; a crate for them would be no plainer.
fn show(rt: &impl Print, answer: Answer) -> io::Result<()> {
    rt.write_all(text::print(answer).as_slice())?;
    rt.write_all(b"\n")
}

// The answers to the lines of a text, one after the other. No line follows a final byte 10.
fn answer_lines(rt: &impl Print, book: &mut [u8], text: &[u8]) -> io::Result<()> {
    if text.is_empty() {
        return Ok(());
    }
    let lines = text.strip_suffix(b"\n").unwrap_or(text);
    for line in lines.split(|byte| *byte == b'\n') {
        show(rt, precheck::submit(book, line))?;
    }
    Ok(())
}

fn main(rt: HostRuntime) -> io::Result<()> {
    let mut book: [u8; SIZE] = blank();
    // A book of the exact size is never refused.
    let _ = precheck::empty(&mut book);
    let mut text: [u8; 600000] = blank();
    let n = read_full(&mut rt.reader(), &mut text)?;
    answer_lines(&rt, &mut book, &text[..n])
}
