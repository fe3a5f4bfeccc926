// What S, W and L make of one kept instruction (document 02, request d), over the lent book. The instruction comes and
// goes by value; nothing is stored here, and no line is read as S, W or L yet.
#![tactic(auto)]

ghost use Rattle.std.specs.Prelude.{◌≡◌, true};
ghost use Rattle.tables.specs.Keyed.{marked};
ghost use Rattle.meaning.specs.Pending.{since, released, started};
ghost use Rattle.meaning.specs.Sound.{sound_lone};
ghost use Rattle.records.specs.Said.{instruction_of};
ghost use Rattle.book.specs.Lone.{lone_book};
ghost use Rattle.commands.specs.Asked.{question_of};
ghost use Rattle.pending.specs.OnBytes.{asking_at, fresh_at, met_by, entered_by, started_by, released_at, left_of, Remembering, Entered};

use commands::Question;
use judge::{Judgement, Scope, judge_within};
use meaning::Deciding;
use memory::{marks_of, with_types};
use places::{Kept, RestrictionType};

// The question that a kept instruction is on a day. Field by field, as `fresh`: the fields are of two types, so `..`
// copies none, and both are of other crates, so this one cannot implement `From` between them.
fn asking(k: Kept, day: u32) -> Question
    ensures { result ≡ asking_at k day }
{
    Question {
        csd: k.csd,
        day,
        object: k.object,
        role: k.role,
        movement: k.movement,
        payment: k.payment,
        transaction: k.transaction,
        currency: k.currency,
        party: k.party,
        account: k.account,
        security: k.security,
    }
}

// An instruction before it meets a rule: no hold is on and no type is remembered. Field by field, for the reasons at
// `asking`.
fn fresh(reference: u32, q: Question) -> Kept
    ensures { result ≡ fresh_at reference q }
{
    Kept {
        csd: q.csd,
        reference,
        object: q.object,
        role: q.role,
        movement: q.movement,
        payment: q.payment,
        transaction: q.transaction,
        currency: q.currency,
        party: q.party,
        account: q.account,
        security: q.security,
        validating: 0,
        holding: 0,
        remembered: [0; 13],
    }
}

// The day of a hold: this day where a rule puts it on, else as before.
fn since(day: u32, before: u32, d: Option<Deciding>) -> u32
    ensures { result ≡ since day before d }
{
    if d.is_none() { before } else { day }
}

// What is left of an instruction by what was found on it: each hold that is put on bears the day, and the types
// exempted are remembered with those that were. Ok where it is kept; Err is what one that is rejected would be left as.
fn after(k: Kept, day: u32, found: Judgement) -> Result<Kept, Kept>
    ensures { result ≡ met_by k day found.verdict (marked found.exempted) }
{
    let v = found.verdict;
    let validating = since(day, k.validating, v.validation);
    let holding = since(day, k.holding, v.party);
    let remembered = with_types(k.remembered, found.exempted);
    let left = Kept {
        validating,
        holding,
        remembered,
        ..k
    };
    if v.rejection.is_some() {
        return Err(left);
    }
    Ok(left)
}

// S: the instruction is judged as a question is. Ok is what is kept of it; Err is what one that is rejected, and so not
// kept, would be left as.
pub fn enter(book: &[u8], reference: u32, q: Question) -> Result<Kept, Kept>
    ensures by_bytes { result ≡ entered_by book.now reference q }
    ensures meant { sound_lone (lone_book q.csd book.now) ≡ true → Entered (lone_book q.csd book.now) reference (question_of q) result }
{
    let found = judge_within(book, q, Scope::whole(), &[]);
    after(fresh(reference, q), q.day, found)
}

// W, of one kept instruction: it meets the rules that are new on the day, of the types that are not passed over. Ok is
// what is left of it; Err is what one that is rejected, and so cancelled, would be left as.
pub fn start(book: &[u8], k: Kept, day: u32) -> Result<Kept, Kept>
    ensures by_bytes { result ≡ started_by book.now k day }
    ensures meant { sound_lone (lone_book k.csd book.now) ≡ true → Remembering k → left_of result ≡ started (lone_book k.csd book.now) day (instruction_of k) }
{
    let passed = marks_of(k.remembered);
    let scope = Scope {
        fresh: true,
        validating: k.validating != 0,
        holding: k.holding != 0,
    };
    let found = judge_within(book, asking(k, day), scope, &passed);
    after(k, day, found)
}

// L: the hold is off. The hold is a processing's number, as a line gives it: another number releases none, and an enum
// would ask more of callers.
pub fn release(k: Kept, hold: u8) -> Kept
    ensures by_bytes { result ≡ released_at hold k }
    ensures meant { instruction_of result ≡ released hold (instruction_of k) }
{
    match hold {
        RestrictionType::VALIDATION_HOLD => Kept { validating: 0, ..k },
        RestrictionType::PARTY_HOLD => Kept { holding: 0, ..k },
        _ => k,
    }
}
