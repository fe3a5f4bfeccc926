// The desk program (document 01, 'The desk program'). Without an argument it answers standard input; with files, each
// in turn over a book emptied for it, where '-' is standard input; with 'batch CSD FILE' it sends a file as one batch;
// with 'keler CSD DAY FIRST LAST' it prints the KELER set. What it decides stands in proved functions on slices. The
// first failure of reading or writing is named on standard error and ends the work.
#![tactic(auto)]

mod batch;

ghost use Rattle.std.specs.Prelude.{◌≡◌, ◌≤◌, length, OnOk};
ghost use Rattle.desk.specs.Loop.{Gave, Behind, Hands, Ends, Input, OneInput};

use arrayvec::ArrayString;
use keler::{KelerSet, keler_line};
use line::read_line;
use lines::{ANSWER_BYTES, Desk};
use marks::blank;
use meaning::Refusal;
use places::SIZE;
use std::env::{Env, FillError};
use std::fmt::{Display, Write as _};
use std::fs::File;
use std::io;
use std::io::{ErrorKind, Read, Write as _};
use std::process::ExitCode;
use std::rt::Files;

// ---- Failures.

// Why the work ended early; it was named on standard error where it was met.
#[derive(Clone, Copy, PartialEq, Eq, Debug)]
enum Failure {
    // reading or writing failed
    Failed,
    // the arguments are wrong
    Wrong,
}

// Names what failed, and why, on standard error.
fn failed<D: Display + Drop>(rt: &impl Eprint, what: &str, why: D) -> Failure
    ensures { result ≡ Failure.Failed }
{
    let _ = eprintln!(rt; "precheck: {what}: {why}");
    Failure::Failed
}

// Nobody reads a closed pipe any more, so it ends the work without a word.
fn write_failed(rt: &impl Eprint, why: io::Error) -> Failure {
    if why.kind() == ErrorKind::BrokenPipe {
        return Failure::Failed;
    }
    failed(rt, "writing to standard output", why)
}

// Writes to standard output. Answers and lines come as bytes from proved functions, and are written as they are here
// and in what follows: `print!` takes text, so each would be tested first, and what to do where it is none be decided.
fn write_out(rt: &(impl Print + Eprint), bytes: &[u8]) -> Result<(), Failure> {
    rt.write_all(bytes).map_err(|why| write_failed(rt, why))
}

// Writes a line to standard output.
fn write_line(rt: &(impl Print + Eprint), line: &[u8]) -> Result<(), Failure> {
    write_out(rt, line)?;
    write_out(rt, b"\n")
}

// A writer with a buffer tells only here that it could not write; std's standard output has none.
fn flush_out(rt: &(impl Print + Eprint)) -> Result<(), Failure> {
    io::writer(rt).flush().map_err(|why| write_failed(rt, why))
}

fn wrong(rt: &impl Eprint, text: &str) -> Failure {
    let _ = rt.eprint(text);
    Failure::Wrong
}

// ---- What is read: a reader, and the name that its failures are told by.

#[derive(Drop)]
struct Source<'a, R> {
    reader: R,
    name: &'a str,
}

// What a call of `read` into a space answered: how many bytes came; a failure is named.
fn answered_by(
    rt: &impl Eprint,
    got: io::Result<usize>,
    space: &[u8],
    name: &str,
) -> Result<usize, Failure>
    ensures { Gave got space.now result }
{
    match got {
        Ok(n) => Ok(n.min(space.len())),
        Err(why) => Err(failed(rt, name, why)),
    }
}

impl<'a, R: Read> Source<'a, R> {
    // Reads once behind the bytes held. The whole text is lent, as the contract says that what is held stays.
    fn read_behind(
        &mut self,
        rt: &impl Eprint,
        text: &mut [u8],
        held: usize,
    ) -> Result<usize, Failure>
        requires { held ≤ length text.old }
        ensures { Behind held text.old result text.new }
    {
        let rest = &mut text[held..];
        let got = self.reader.read(rest);
        answered_by(rt, got, rest, self.name)
    }
}

// ---- A text is read in pieces, and its lines are answered before more is waited for.

// The text space: what is held and a piece.
const TEXT: usize = 8192;

// The answers to a text take at most so many bytes for each of its bytes.
const ANSWERS: usize = ANSWER_BYTES * TEXT;

// What an input is answered in: a book, a text of which some bytes are held, and the answers to it.
#[derive(Drop)]
struct Spaces {
    book: [u8; SIZE],
    text: [u8; TEXT],
    out: [u8; ANSWERS],
}

impl Spaces {
    fn new() -> Spaces {
        Spaces {
            book: blank(),
            text: blank(),
            out: blank(),
        }
    }

    // A piece came behind the bytes held: the lines that are ended now are answered.
    fn answer_piece(
        &mut self,
        rt: &(impl Print + Eprint),
        desk: Desk,
        came: usize,
    ) -> Result<Desk, Failure>
        ensures { Hands desk came self.old.book self.old.text result self.new.book self.new.text }
    {
        let step = desk
            .answer_piece(came, &mut self.book, &mut self.text, &mut self.out)
            .unwrap();
        write_out(rt, &self.out[..step.written])?;
        Ok(step.desk)
    }

    // The end of input: the line that is begun is answered, if there is one.
    fn answer_end(&mut self, rt: &(impl Print + Eprint), desk: Desk) -> Result<(), Failure>
        ensures { Ends desk self.old.book self.old.text self.new.book }
    {
        let step = desk
            .answer_end(&mut self.book, &self.text, &mut self.out)
            .unwrap();
        write_out(rt, &self.out[..step.written])
    }

    // Answers until the end of input or the first failure. A proved loop has to end, so it counts its turns up to a
    // number that no input uses up.
    fn answer_all<R: Read>(
        &mut self,
        rt: &(impl Print + Eprint),
        source: &mut Source<R>,
    ) -> Result<(), Failure>
        ensures { OnOk result (Input self.old.book self.old.text self.new.book) }
    {
        let mut desk = Desk::begin(&self.book);
        for _ in 0..u64::MAX {
            let came = source.read_behind(rt, &mut self.text, desk.held)?;
            let is_end = came == 0;
            if is_end {
                return self.answer_end(rt, desk);
            }
            desk = self.answer_piece(rt, desk, came)?;
        }
        Err(Failure::Failed)
    }

    // Answers what a reader gives, over a book that is emptied for it.
    fn answer_emptied<R: Read>(
        &mut self,
        rt: &(impl Print + Eprint),
        source: &mut Source<R>,
    ) -> Result<(), Failure>
        ensures { OnOk result (OneInput self.old.book self.old.text self.new.book) }
    {
        // A book of the exact size is never refused.
        let _ = precheck::empty(&mut self.book);
        self.answer_all(rt, source)
    }
}

fn answer_input<R: Read + Drop>(
    rt: &(impl Print + Eprint),
    mut source: Source<R>,
) -> Result<(), Failure> {
    let mut spaces = Spaces::new();
    spaces.answer_emptied(rt, &mut source)
}

fn answer_standard_input(rt: &(impl io::Input + Print + Eprint)) -> Result<(), Failure> {
    answer_input(
        rt,
        Source {
            reader: rt.reader(),
            name: "standard input",
        },
    )
}

// Answers a file, or standard input for '-'.
fn answer_file<R: Files + io::Input + Print + Eprint>(rt: &R, path: &str) -> Result<(), Failure> {
    if path == "-" {
        return answer_standard_input(rt);
    }
    match File::open(rt, path) {
        Ok(reader) => answer_input(rt, Source { reader, name: path }),
        Err(why) => Err(failed(rt, path, why)),
    }
}

// ---- The KELER set, for the four arguments behind the word 'keler'.

// A T line made of the arguments: csd, day, first and last day are read as every line's fields are.
fn type_line(rt: &impl Env) -> ArrayString<80> {
    let mut csd = [0u8; 16];
    let mut day = [0u8; 16];
    let mut first = [0u8; 16];
    let mut last = [0u8; 16];
    let csd = argument(rt, 2, &mut csd);
    let day = argument(rt, 3, &mut day);
    let first = argument(rt, 4, &mut first);
    let last = argument(rt, 5, &mut last);
    let mut line = ArrayString::new();
    let _ = write!(line, "T,{csd},{day},1,1,1,{first},{last}");
    line
}

// Says why the arguments make no set.
fn wrong_set(rt: &impl Eprint, refusal: Refusal) -> Failure {
    if refusal == Refusal::TooEarly {
        return wrong(
            rt,
            "precheck: keler: FIRST is not later than DAY (refusal 6)\n",
        );
    }
    wrong(
        rt,
        "precheck: keler: CSD is 1 to 8, days are dates such as 20170206, FIRST is not after LAST (refusal 5)\n",
    )
}

// Prints a line of the set.
fn print_line(
    rt: &(impl Print + Eprint),
    number: u32,
    set: KelerSet,
    space: &mut [u8],
) -> Result<(), Failure> {
    match keler_line(number, set, space) {
        Ok(n) => write_line(rt, &space[..n.min(space.len())]),
        Err(refusal) => Err(wrong_set(rt, refusal)),
    }
}

fn print_set(rt: &(impl Env + Print + Eprint)) -> Result<(), Failure> {
    let fields = type_line(rt);
    let Ok(line) = read_line(fields.as_bytes()) else {
        return Err(wrong_set(rt, Refusal::BadField));
    };
    let [csd, day, _, _, _, first, last, ..] = line.values;
    let set = KelerSet {
        csd,
        day,
        first,
        last,
    };
    let mut space = [0u8; 80];
    for number in 1..56 {
        print_line(rt, number, set, &mut space)?;
    }
    Ok(())
}

// ---- The arguments.

fn usage(rt: &impl Eprint) -> Failure {
    wrong(
        rt,
        "usage: desk [FILE..]\n       desk batch CSD FILE\n       desk keler CSD DAY FIRST LAST\n",
    )
}

// How many arguments the program was started with, its own name among them. `calls` asks the same of one index, and has
// the failures of `file_name` too: std's `arg` promises only how much it writes, so public functions of both in `input`
// would have no contract that fixes what they answer.
fn argument_count(rt: &impl Env) -> usize {
    let mut space = [0u8; 1];
    for i in 0..usize::MAX {
        if let Err(FillError::NotPresent) = rt.arg(i, &mut space) {
            return i;
        }
    }
    usize::MAX
}

// An argument, put into a space; nothing where it is missing, longer than the space or no text.
fn argument<'a>(rt: &impl Env, i: usize, space: &'a mut [u8]) -> &'a str {
    match rt.arg(i, space) {
        Ok(n) => std::str::from_utf8(&space[..n]).unwrap_or(""),
        Err(_) => "",
    }
}

// The name of a file, put into a space; a failure is named.
fn file_name<'a>(
    rt: &(impl Env + Eprint),
    i: usize,
    space: &'a mut [u8],
) -> Result<&'a str, Failure> {
    let what = "the name of a file";
    match rt.arg(i, space) {
        Ok(n) => std::str::from_utf8(&space[..n]).map_err(|why| failed(rt, what, why)),
        Err(_) => Err(failed(rt, what, "File name too long")),
    }
}

// Answers the lines of the file that an argument names.
fn answer_argument<R: Env + Files + io::Input + Print + Eprint>(
    rt: &R,
    i: usize,
) -> Result<(), Failure> {
    let mut space = [0u8; 4096];
    let path = file_name(rt, i, &mut space)?;
    answer_file(rt, path)
}

fn answer_arguments<R: Env + Files + io::Input + Print + Eprint>(
    rt: &R,
    count: usize,
) -> Result<(), Failure> {
    for i in 1..count {
        answer_argument(rt, i)?;
    }
    Ok(())
}

// A match on words: each takes other arguments, and answers in its own way.
fn work<R: Env + Files + io::Input + Print + Eprint>(rt: &R) -> Result<(), Failure> {
    let count = argument_count(rt);
    let mut space = [0u8; 6];
    match (argument(rt, 1, &mut space), count) {
        (_, 0 | 1) => answer_standard_input(rt),
        ("keler", 6) => print_set(rt),
        ("batch", 4) => batch::answer_batch(rt),
        ("keler" | "batch", _) => Err(usage(rt)),
        _ => answer_arguments(rt, count),
    }
}

// The work, and flushing standard output after it.
fn work_and_flush<R: Env + Files + io::Input + Print + Eprint>(rt: &R) -> Result<(), Failure> {
    work(rt)?;
    flush_out(rt)
}

fn main(rt: HostRuntime) -> ExitCode {
    match work_and_flush(&rt) {
        Ok(()) => ExitCode::SUCCESS,
        Err(Failure::Wrong) => ExitCode::from(2),
        Err(Failure::Failed) => ExitCode::FAILURE,
    }
}
