// Writes answers as vectors/CALLS.md says.
ghost use Rattle.std.specs.Prelude.{◌≤◌, length};

use meaning::{Answer, Refusal};

// Writes to standard output. The gate compares what was written, so a write that fails shows there.
fn write(rt: &impl Print, bytes: &[u8]) {
    let _ = rt.write_all(bytes);
}

// The answer to a line, as the desk prints it. A printed answer is bytes, and `print!` takes text.
pub(crate) fn show(rt: &impl Print, answer: Answer) {
    write_answer(rt, answer);
    write(rt, b"\n");
}

fn write_answer(rt: &impl Print, answer: Answer) {
    write(rt, text::print(answer).as_slice());
}

// The answer to emptying: K, or its refusal.
pub(crate) fn show_emptied(rt: &impl Print, emptied: Result<(), Refusal>) {
    match emptied {
        Ok(()) => show(rt, Answer::Taken),
        Err(refusal) => show(rt, Answer::Refused(refusal)),
    }
}

// A call of no kind that is known has an answer too, so that those after it stay in their places.
pub(crate) fn show_unknown(rt: &impl Print) {
    write(rt, b"?\n");
}

// ---- A lent answer space

// The number of lines, or the refusal.
pub(crate) fn show_batch(rt: &impl Print, answered: Result<usize, Refusal>) {
    match answered {
        Ok(count) => {
            let _ = print!(rt; "{count}");
        }
        Err(refusal) => write_answer(rt, Answer::Refused(refusal)),
    }
}

// How many bytes the space has up to its last that is not #.
fn written(space: &[u8]) -> usize
    ensures { result ≤ length space.now }
{
    match space.iter().rposition(|byte| *byte != b'#') {
        Some(last) => last + 1,
        None => 0,
    }
}

// A byte of the space as it is shown.
fn shown(byte: u8) -> u8 {
    match byte {
        0 => b'.',
        b'\n' => b'/',
        _ => byte,
    }
}

fn make_readable(space: &mut [u8]) {
    for byte in space.iter_mut() {
        *byte = shown(*byte);
    }
}

// A blank and the space without its trailing #, if anything stands there, and the answer's end.
pub(crate) fn show_space(rt: &impl Print, space: &mut [u8]) {
    let n = written(space);
    if n == 0 {
        return write(rt, b"\n");
    }
    make_readable(space);
    write(rt, b" ");
    write(rt, &space[..n]);
    write(rt, b"\n");
}
