// The nine edits on the lent book: what an accepted edit leaves.
#![tactic(auto)]

ghost use Rattle.std.specs.Prelude.{◌≡◌, ℕ, List};
ghost use Rattle.tables.specs.Table.{place_of};
ghost use Rattle.records.specs.Said.{row_of};
ghost use Rattle.commands.specs.Asked.{asked};
ghost use Rattle.edits.specs.Leaves.{Accepted, Edited};
ghost use Rattle.edits.specs.Moves.{row_with};
ghost use Rattle.edits.specs.Edit.{stored, Changed, ChangedEach, ended_type, ended_period, deleted_rule, deleted_row, reordered_rule, edit_in};

use book::{find, is_hit};
use commands::{Command, What};
use places::{Period, Place, RestrictionType, Row, Rule, record_at};
use records::{PeriodAsk, PeriodKey, Record, RowAsk, RuleAsk, RuleKey, TypeAsk, TypeKey};
use stores::{Store, put};

// T, R, M and A: a record more, at a free place, if there is one.
fn add<P: Record + Store>(b: &mut [u8], r: P)
    ensures { b.new ≡ stored P.PLACES P.put b.old (place_of P.table b.old 0 (P.asked P.any)) r }
{
    if let Some(i) = find::<P>(b, 0, P::any()) {
        put(b, i, r);
    }
}

// E, Z, D, N and the rule of O: the record as asked is changed where it stands, if it does.
fn change<P: Record + Store, F: Fn(P) -> P>(b: &mut [u8], csd: u8, q: P::Ask, f: F)
    requires { F.IsAlwaysCallable f }
    ensures { Changed P.PLACES P.at P.put (F.post f) b.old (place_of P.table b.old csd (P.asked q)) b.new }
{
    if let Some(i) = find::<P>(b, csd, q) {
        put(b, i, f(record_at::<P>(b, i)));
    }
}

// E, Z, D and N are one call of `change` each, which names its own question and what becomes of the record.

// E: the type's last day.
fn end_type(b: &mut [u8], csd: u8, key: TypeKey, last: u32)
    ensures { b.new ≡ ended_type b.old csd key.number key.object last }
{
    change::<RestrictionType, _>(
        b,
        csd,
        TypeAsk::Named(key),
        |r| RestrictionType { last, ..r },
    );
}

// Z: the same for a period, which p names and whose last day is the new one.
fn end_period(b: &mut [u8], p: Period)
    ensures { b.new ≡ ended_period b.old p }
{
    let named = PeriodAsk::Named(PeriodKey::from(p));
    change::<Period, _>(b, p.csd, named, |r| Period { last: p.last, ..r });
}

// D: the rule's place is free again.
fn delete_rule(b: &mut [u8], csd: u8, key: RuleKey)
    ensures { b.new ≡ deleted_rule b.old csd key.number key.object key.sequence }
{
    change::<Rule, _>(b, csd, RuleAsk::Named(key), |_| Rule::default());
}

// N
fn delete_row(b: &mut [u8], w: Row)
    ensures { b.new ≡ deleted_row b.old w.csd (row_of w) }
{
    change::<Row, _>(b, w.csd, RowAsk::Same(w), |_| Row::default());
}

// What becomes of a record that a pass over a table meets: a value says it, by the book as it then is. A trait and no
// closure, of which a public function would have to ask that it can be called.
pub trait Step {
    type Record: Record + Store;

    ghost made: { Self → List ℕ → Self.Record → Self.Record };

    fn made(&self, b: &[u8], r: Self::Record) -> Self::Record
        ensures { result ≡ made self.now b.now r };
}

// Each record of a depository that is as asked is stored as what the step makes of it and of the book as it then is.
// Not over `places_of`, which would keep the book lent while a place is stored.
pub fn change_each<S: Step>(b: &mut [u8], csd: u8, q: <S::Record as Record>::Ask, step: &S)
    ensures { ChangedEach S.Record.table S.Record.at S.Record.put csd (S.Record.asked q) (λ x r y. y ≡ S.made step.now x r) b.old S.Record.PLACES b.new }
{
    for i in 0..S::Record::PLACES {
        if is_hit::<S::Record>(b, i, csd, q) {
            let made = step.made(b, record_at::<S::Record>(b, i));
            put(b, i, made);
        }
    }
}

// A row bears the new sequence of its rule.
#[derive(Clone, Copy)]
struct Resequenced {
    new: u8,
}

impl Step for Resequenced {
    type Record = Row;

    ghost made = { λ s b w. row_with s.new w };

    fn made(&self, _b: &[u8], w: Row) -> Row {
        Row {
            sequence: self.new,
            ..w
        }
    }
}

// O: the rule is given the new sequence, then each of its rows.
fn reorder(b: &mut [u8], csd: u8, key: RuleKey, new: u8)
    ensures { b.new ≡ reordered_rule b.old csd key.number key.object key.sequence new }
{
    change::<Rule, _>(b, csd, RuleAsk::Named(key), |r| Rule { sequence: new, ..r });
    change_each(b, csd, RowAsk::OfRule(key), &Resequenced { new });
}

// ---- Of a command.

// What an accepted command does to the bytes: a question nothing. Over a sound book it leaves what the meaning says. A
// command is any value of its type: its depository is stored, whatever its record says.
pub fn edit(b: &mut [u8], c: Command)
    ensures bytes { b.new ≡ edit_in b.old c.csd (asked c) }
    ensures meant { Accepted b.old c.csd (asked c) → Edited b.old c.csd (asked c) b.new }
{
    let csd = c.csd;
    match c.what {
        What::AddType(t) => add(b, RestrictionType { csd, ..t }),
        What::EndType(key, last) => end_type(b, csd, key, last),
        What::AddRule(r) => add(b, Rule { csd, ..r }),
        What::Reorder(key, new) => reorder(b, csd, key, new),
        What::DeleteRule(key) => delete_rule(b, csd, key),
        What::AddRow(w) => add(b, Row { csd, ..w }),
        What::DeleteRow(w) => delete_row(b, Row { csd, ..w }),
        What::AddPeriod(p) => add(b, Period { csd, ..p }),
        What::EndPeriod(p) => end_period(b, Period { csd, ..p }),
        What::Ask(_, _) => {}
    }
}
