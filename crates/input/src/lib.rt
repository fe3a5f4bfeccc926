// Input that is read whole, for a batch at the desk and for the test programs.
#![tactic(auto)]

ghost use Rattle.std.specs.Prelude.{◌≤◌, length, IfOk};

use std::io;
use std::io::Read;

// Reads until the text is full or the input ends, and returns how many bytes it put at the text's start. A proved loop
// has to end, so it counts its turns up to a number that no input uses up.
pub fn read_full<R: Read>(input: &mut R, text: &mut [u8]) -> io::Result<usize>
    ensures { IfOk result (λ n. n ≤ length text.new) }
{
    let mut held: usize = 0;
    for _ in 0..u64::MAX {
        let came = input.read(&mut text[held..])?;
        if came == 0 {
            break;
        }
        held += came;
    }
    Ok(held)
}
