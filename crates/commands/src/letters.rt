// A line's command from its letter and numbers: the only code that knows where a number stands in a line.
ghost use Rattle.std.specs.Prelude.{◌≡◌, ◌%◌};
ghost use Rattle.meaning.specs.Forms.{letter_t, letter_r, letter_q};
ghost use Rattle.meaning.specs.Records.{◌!◌, wish_of, row_of, command_of};
ghost use Rattle.commands.specs.Asked.{type_key_on, rule_key_on, row_on, period_on, what_of, coded, letter_for};
ghost use Rattle.commands.specs.declared.What.TheVariants.{AddType, AddRule};

use crate::{Command, Question, What};
use basics::low;
use meaning::Wishes;
use places::{Period, RestrictionType, Row, Rule};
use records::{RuleKey, TypeKey};

// A function makes each record, where an impl of From cannot stand: the records are types of another crate, and the
// numbers no type of this one. `ask_of` is of Q's numbers: a From of any sixteen would not say the letter.

// What T puts in.
fn type_of(v: [u32; 16]) -> RestrictionType
    ensures { AddType result ≡ what_of (v ! 0 % 256) (command_of letter_t v) }
{
    RestrictionType::new(low(v[0]), low(v[2]), low(v[3]), low(v[4]), v[5], v[6])
}

// What R puts in.
fn rule_of(v: [u32; 16]) -> Rule
    ensures { AddRule result ≡ what_of (v ! 0 % 256) (command_of letter_r v) }
{
    Rule::new(
        low(v[0]),
        low(v[2]),
        low(v[3]),
        low(v[4]),
        low(v[5]),
        v[6],
        v[7],
        v[8],
    )
}

// The type that E ends.
fn type_key_of(v: [u32; 16]) -> TypeKey
    ensures { result ≡ type_key_on (v ! 2) (v ! 3) }
{
    TypeKey {
        number: low(v[2]),
        object: low(v[3]),
    }
}

// The rule that O reorders and D deletes.
fn rule_key_of(v: [u32; 16]) -> RuleKey
    ensures { result ≡ rule_key_on (v ! 2) (v ! 3) (v ! 4) }
{
    RuleKey {
        sequence: low(v[4]),
        number: low(v[2]),
        object: low(v[3]),
    }
}

// The row that M puts in and N deletes.
fn row_of(v: [u32; 16]) -> Row
    ensures { let w = row_of v in result ≡ row_on (v ! 0 % 256) w.type w.object w.sequence w.values }
{
    let values = [
        v[5], v[6], v[7], v[8], v[9], v[10], v[11], v[12], v[13], v[14],
    ];
    Row::new(low(v[0]), low(v[2]), low(v[3]), low(v[4]), values)
}

// The period that A puts in and Z ends.
fn period_of(v: [u32; 16]) -> Period
    ensures { result ≡ period_on (v ! 0 % 256) (v ! 2) (v ! 3) (v ! 4) (v ! 5) (v ! 6) }
{
    Period::new(low(v[0]), low(v[2]), v[3], v[4], v[5], v[6])
}

// The number of Y in a hold indicator or an account's default; 0 is an empty one.
const YES: u32 = 1;

// What a hold indicator or an account's default says, if it isn't empty: whether it is Y.
fn wish_of(number: u32) -> Option<bool>
    ensures { result ≡ wish_of number }
{
    if number == 0 {
        return None;
    }
    Some(number == YES)
}

// What Q asks, and the wishes that it carries.
fn ask_of(v: [u32; 16]) -> What
    ensures { result ≡ what_of (v ! 0 % 256) (command_of letter_q v) }
{
    let question = Question {
        csd: low(v[0]),
        day: v[1],
        object: low(v[2]),
        role: v[3],
        movement: v[4],
        payment: v[5],
        transaction: v[6],
        currency: v[7],
        party: v[8],
        account: v[9],
        security: v[10],
    };
    let wishes = Wishes {
        indicator: wish_of(v[11]),
        default: wish_of(v[12]),
    };
    What::Ask(question, wishes)
}

// What a line of that letter and numbers asks. A byte and no Shape: `command_of` takes any letter, and a Shape would
// ask more of its callers. Each arm takes other fields.
fn what_of(letter: u8, v: [u32; 16]) -> What
    ensures { result ≡ what_of (v ! 0 % 256) (command_of (letter_for letter) v) }
{
    match letter {
        b'T' => What::AddType(type_of(v)),
        b'E' => What::EndType(type_key_of(v), v[4]),
        b'R' => What::AddRule(rule_of(v)),
        b'O' => What::Reorder(rule_key_of(v), low(v[5])),
        b'D' => What::DeleteRule(rule_key_of(v)),
        b'M' => What::AddRow(row_of(v)),
        b'N' => What::DeleteRow(row_of(v)),
        b'A' => What::AddPeriod(period_of(v)),
        b'Z' => What::EndPeriod(period_of(v)),
        _ => ask_of(v),
    }
}

// What a line of that letter and numbers commands. What is no letter of the table is taken for Q.
pub fn command_of(letter: u8, v: [u32; 16]) -> Command
    ensures { result ≡ coded (v ! 0 % 256) (v ! 1) (command_of (letter_for letter) v) }
{
    Command {
        csd: low(v[0]),
        day: v[1],
        what: what_of(letter, v),
    }
}
