// Prints an answer as document 01's 'The desk program' says, and the status of document 02, request b. Not by
// `Display`: `write!` says what it wrote only where it gives Ok, and nothing says that it does, so `print`, which never
// fails, could not promise its bytes; a String, which can, needs a heap.
ghost use Rattle.std.specs.Prelude.{◌≡◌, ◌≤◌, [], ◌∷◌, length};
ghost use Rattle.meaning.specs.Printing.{verdict_text, deciding_numbers};
ghost use Rattle.meaning.specs.declared.Answer.TheVariants.{WithStatus};
ghost use Rattle.writing.specs.Written.{added_all};
ghost use Rattle.text.specs.Printed.{deciding_text, Prints, PrintsVerdict};

use meaning::{Answer, Deciding, Verdict};
use writing::Written;

// A text of one letter.
#[tactic(auto, unfolding(writing::specs::Written::added))]
fn letter(c: u8) -> Written
    ensures { result ≡ c ∷ [] }
{
    let mut p = Written::new();
    p.push(c);
    p
}

// A letter more, behind a comma.
#[tactic(auto, unfolding(writing::specs::Written::added_all))]
fn push_letter(p: &mut Written, c: u8)
    ensures { p.new ≡ added_all p.old (44 ∷ c ∷ []) }
{
    p.push(b',');
    p.push(c);
}

// Type and sequence of what decides, 0 and 0 where nothing does.
fn numbers(d: Option<Deciding>) -> (u8, u8)
    ensures { result ≡ deciding_numbers d }
{
    d.map_or((0, 0), |d| (d.number, d.sequence))
}

// Those more, each behind a comma.
#[tactic(auto, unfolding(crate::specs::Printed::deciding_text))]
fn push_deciding(p: &mut Written, d: Option<Deciding>)
    ensures text { p.new ≡ added_all p.old (deciding_text d) }
    ensures few { length (deciding_text d) ≤ 8 }
{
    let (number, sequence) = numbers(d);
    p.push_numbers(&[u32::from(number), u32::from(sequence)]);
}

// V and the verdict, A accepted or R rejected.
#[tactic(auto, unfolding(writing::specs::Written::added, writing::specs::Written::added_all))]
fn verdict_text(rejected: bool) -> Written
    ensures { result ≡ verdict_text rejected }
{
    let mut p = letter(b'V');
    push_letter(&mut p, if rejected { b'R' } else { b'A' });
    p
}

// V, the verdict, and type and sequence deciding rejection, validation hold and party hold.
fn print_verdict(v: Verdict) -> Written
    ensures { PrintsVerdict v result }
{
    let mut p = verdict_text(v.rejection.is_some());
    push_deciding(&mut p, v.rejection);
    push_deciding(&mut p, v.validation);
    push_deciding(&mut p, v.party);
    p
}

// The same, and the status: Y on party hold, N not.
fn print_status(v: Verdict, status: bool) -> Written
    ensures { Prints (WithStatus v status) result }
{
    let mut p = print_verdict(v);
    push_letter(&mut p, if status { b'Y' } else { b'N' });
    p
}

// K for an edit; F and the refusal; V and the verdict; or V, the verdict and the status. A match, since the kinds of
// answers are an enum.
pub fn print(answer: Answer) -> Written
    ensures { Prints answer result }
{
    match answer {
        Answer::Taken => letter(b'K'),
        Answer::Refused(refusal) => {
            let mut p = letter(b'F');
            let number = u8::from(refusal);
            p.push_numbers(&[u32::from(number)]);
            p
        }
        Answer::Judged(v) => print_verdict(v),
        Answer::WithStatus(v, status) => print_status(v, status),
    }
}
