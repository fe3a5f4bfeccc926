// W over a lent book that has the places of kept instructions behind it (document 02, request d): each instruction of
// the depository meets the rules that are new on the day. Nothing reaches it yet.
#![tactic(auto)]

ghost use Rattle.std.specs.Prelude.{◌≡◌};
ghost use Rattle.starting.specs.Days.{start_step, start_day};

use edits::{Step, change_each};
use pending::start;
use places::Kept;
use records::InstructionAsk;

// What W leaves at an instruction's place on a day: nothing where it is rejected.
#[derive(Clone, Copy)]
struct StartOfDay {
    day: u32,
}

impl Step for StartOfDay {
    type Record = Kept;

    ghost made = { λ s b k. start_step s.day b k };

    #[tactic(auto, unfolding(crate::specs::Days::start_step))]
    fn made(&self, b: &[u8], k: Kept) -> Kept {
        start(b, k, self.day).unwrap_or(Kept::default())
    }
}

// W: each of the depository's kept instructions.
pub fn start_day(b: &mut [u8], csd: u8, day: u32)
    ensures { b.new ≡ start_day csd day b.old }
{
    change_each(b, csd, InstructionAsk::Any, &StartOfDay { day });
}
