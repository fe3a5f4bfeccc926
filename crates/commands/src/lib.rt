// What a line asks, by name (document 01, the table of letters; document 02, request b). The letters' module makes it
// of a line's letter and numbers.
#![tactic(auto)]

mod letters;

ghost use Rattle.std.specs.Prelude.{◌≡◌};
ghost use Rattle.meaning.specs.Refusals.{wrong};
ghost use Rattle.commands.specs.Asked.{asked};

pub use letters::command_of;
use meaning::Wishes;
use places::{Period, RestrictionType, Row, Rule};
use records::{RuleKey, TypeKey};

// A question. Role is the instructing party's type; an empty field is 0, and role, movement and payment are numbers, as
// in a row and a kept instruction, with whose numbers they are compared as they lie, and in the written meaning. It has
// a depository and a day of its own, since it is judged without a command too, where a kept instruction asks it.
#[derive(Clone, Copy)]
pub struct Question {
    pub csd: u8,
    pub day: u32,
    pub object: u8,
    pub role: u32,
    pub movement: u32,
    pub payment: u32,
    pub transaction: u32,
    pub currency: u32,
    pub party: u32,
    pub account: u32,
    pub security: u32,
}

// What is asked, beside the depository and the day of a command.
#[derive(Clone, Copy)]
pub enum What {
    AddType(RestrictionType),
    // The new last day.
    EndType(TypeKey, u32),
    AddRule(Rule),
    // The new sequence.
    Reorder(RuleKey, u8),
    DeleteRule(RuleKey),
    AddRow(Row),
    DeleteRow(Row),
    AddPeriod(Period),
    // The period whose last day is the new one: a line has the same fields as for AddPeriod.
    EndPeriod(Period),
    Ask(Question, Wishes),
}

// A command of a depository.
#[derive(Clone, Copy)]
pub struct Command {
    pub csd: u8,
    pub day: u32,
    pub what: What,
}

// What no single field shows of refusal 5. The tests are joined by `&` and `|`: an arm is then one value for its proof.
pub fn is_wrong(c: Command) -> bool
    ensures { result ≡ wrong (asked c) }
{
    let what = c.what;
    match what {
        // Party hold is for instructions, and first is not after last.
        What::AddType(t) => {
            let processing = t.processing == RestrictionType::PARTY_HOLD;
            let object = t.object == RestrictionType::RESTRICTION;
            processing & object | (t.last < t.first)
        }
        What::AddRule(r) => r.last < r.first,
        What::AddPeriod(p) => p.last < p.first,
        // Movement and payment are filled for instructions and empty for restrictions.
        What::Ask(q, _) => {
            let movement = q.movement == 0;
            let payment = q.payment == 0;
            if q.object == RestrictionType::INSTRUCTION {
                movement | payment
            } else {
                !(movement & payment)
            }
        }
        What::EndType(_, _)
        | What::Reorder(_, _)
        | What::DeleteRule(_)
        | What::AddRow(_)
        | What::DeleteRow(_)
        | What::EndPeriod(_) => false,
    }
}
