// Reads lines from standard input and writes of each its refusal or, where it is read, its letter; then answers in
// their printed forms. tools/line_vectors.py writes what it reads and must write.
#![tactic(auto)]

use input::read_full;
use meaning::{Answer, Deciding, Refusal, Verdict};
use std::io;

fn show(rt: &impl Print, line: &[u8]) -> io::Result<()> {
    let shown = match line::read_line(line) {
        Ok(line) => line.letter,
        Err(refusal) => b'0' + u8::from(refusal),
    };
    rt.write_all(&[shown, b'\n'])
}

// The lines of a text, one after the other. The index stays: it is what `next_line`, which is tried here, takes.
fn show_lines(rt: &impl Print, text: &[u8]) -> io::Result<()> {
    let mut at: usize = 0;
    while at < text.len() {
        let line = text::next_line(text, at);
        let end = line.end;
        show(rt, &text[at..end])?;
        at = line.next;
    }
    Ok(())
}

// `precheck_main` and `calls` have two lines like these; a crate for them would be no plainer.
fn show_answer(rt: &impl Print, answer: Answer) -> io::Result<()> {
    rt.write_all(text::print(answer).as_slice())?;
    rt.write_all(b"\n")
}

fn by(number: u8, sequence: u8) -> Option<Deciding> {
    Some(Deciding { number, sequence })
}

fn verdict(
    rejection: Option<Deciding>,
    validation: Option<Deciding>,
    party: Option<Deciding>,
) -> Verdict {
    Verdict {
        rejection,
        validation,
        party,
    }
}

fn main(rt: HostRuntime) -> io::Result<()> {
    let mut text = [0u8; 65536];
    let n = read_full(&mut rt.reader(), &mut text)?;
    show_lines(&rt, &text[..n])?;
    show_answer(&rt, Answer::Taken)?;
    show_answer(&rt, Answer::Refused(Refusal::AlreadyHeld))?;
    show_answer(&rt, Answer::Refused(Refusal::QuotaFull))?;
    let accepted = verdict(None, None, None);
    show_answer(&rt, Answer::Judged(verdict(None, None, by(9, 5))))?;
    show_answer(&rt, Answer::Judged(accepted))?;
    show_answer(
        &rt,
        Answer::Judged(verdict(by(255, 99), by(100, 10), by(9, 1))),
    )?;
    show_answer(&rt, Answer::WithStatus(accepted, false))?;
    let longest = verdict(by(255, 199), by(200, 210), by(220, 230));
    show_answer(&rt, Answer::WithStatus(longest, true))
}
