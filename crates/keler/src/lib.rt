// Writes the lines of the KELER set (document 01, 'The KELER set').
#![tactic(auto)]

mod set;

ghost use Rattle.std.specs.Prelude.{◌≡◌, ◌≤◌, length};
ghost use Rattle.meaning.specs.Fields.{within};
ghost use Rattle.meaning.specs.Keler.{keler_refusal};
ghost use Rattle.keler.specs.Step.{admitted, Puts, Steps};

use days::is_day;
use meaning::Refusal;
use set::set_line;
use writing::{SPACE, Written};

// What a set is written for: a depository, the day of each line, and the first and last day of its types and rules.
#[derive(Clone, Copy, Debug, PartialEq, Eq)]
pub struct KelerSet {
    pub csd: u32,
    pub day: u32,
    pub first: u32,
    pub last: u32,
}

// The set has 55 lines. This range and the next have names, as the proof of `is_admitted` cites them; what they share
// is `contains`.
fn is_number(number: u32) -> bool
    ensures { result ≡ within 1 55 number }
{
    (1..=55).contains(&number)
}

fn is_csd(csd: u32) -> bool
    ensures { result ≡ within 1 8 csd }
{
    (1..=8).contains(&csd)
}

// A right number, csd and dates, first not after last, and 80 or more bytes. All tests are made: `&&` would part the
// proof at each.
fn is_admitted(number: u32, set: KelerSet, space: usize) -> bool
    ensures { result ≡ admitted number set.csd set.day set.first set.last space }
{
    is_number(number)
        & is_csd(set.csd)
        & is_day(set.day)
        & is_day(set.first)
        & is_day(set.last)
        & (set.first <= set.last)
        & (SPACE <= space)
}

// Anything wrong comes before a first day not later than the day.
fn refusal(number: u32, set: KelerSet, space: usize) -> Option<Refusal>
    ensures { result ≡ keler_refusal number set.csd set.day set.first set.last space }
{
    if !is_admitted(number, set, space) {
        return Some(Refusal::BadField);
    }
    if set.first <= set.day {
        return Some(Refusal::TooEarly);
    }
    None
}

// Puts a line in front of the bytes; those after it stay. Returns its length.
fn put(line: &Written, out: &mut [u8]) -> usize
    requires { length line.now ≤ length out.old }
    ensures { Puts line.now out.old result out.new }
{
    let bytes = line.as_slice();
    let n = bytes.len();
    out[..n].copy_from_slice(bytes);
    n
}

// Writes line 1 to 55 of a set, and returns its length; or refuses and writes nothing. The caller lends the bytes,
// since there is no heap, and document 01 says what stands in them: 'a shorter buffer gets 5', 'the bytes after it
// untouched'.
pub fn keler_line(number: u32, set: KelerSet, out: &mut [u8]) -> Result<usize, Refusal>
    ensures { Steps number set.csd set.day set.first set.last out.old result out.new }
{
    if let Some(refusal) = refusal(number, set, out.len()) {
        return Err(refusal);
    }
    let n = (number - 1) as usize;
    let line = set_line(n, set);
    Ok(put(&line, out))
}
