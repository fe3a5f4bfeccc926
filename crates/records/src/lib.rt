// What is asked of one record by value, and the tests that others use.
#![tactic(auto)]

ghost use Rattle.std.specs.Prelude.{◌≡◌, ◌<◌, Bool, true, eqb, refl};
ghost use Rattle.std.proofs.Common.{rules};
ghost use Rattle.tables.specs.Count.{all_below};
ghost use Rattle.tables.specs.Table.{Table};
ghost use Rattle.meaning.specs.Records as M;
ghost use Rattle.meaning.specs.Keys.{filled, is_rule};
ghost use Rattle.meaning.specs.Text.{same};
ghost use Rattle.meaning.specs.Refusals.{outside};
ghost use Rattle.meaning.specs.Pending.{held_since};
ghost use Rattle.records.specs.Said.{type_of, rule_of, row_of, period_of, instruction_of};
ghost use Rattle.records.specs.Criteria.{belongs, agrees, filled_count};
ghost use Rattle.records.specs.Values.{first_difference};
ghost use Rattle.records.specs.Keyed.{type_key, rule_key, row_key, period_key};
ghost use Rattle.records.specs.Tables.{of_types, of_rules, of_rows, of_periods, table, kept};
ghost use Rattle.records.specs.Asks.{type_meets, rule_meets, row_meets, period_meets, instruction_meets, type_all, rule_all, row_all, period_all, instruction_all};

use places::{Kept, Period, Place, RestrictionType, Row, Rule};

// ---- How the records of a depository are known (document 01, 'Records').

// A type.
#[derive(Clone, Copy, PartialEq, Eq)]
pub struct TypeKey {
    pub number: u8,
    pub object: u8,
}

// A rule, and each of its rows. The sequence, which differs most often, is compared first.
#[derive(Clone, Copy, PartialEq, Eq)]
pub struct RuleKey {
    pub sequence: u8,
    pub number: u8,
    pub object: u8,
}

// A period. The first day, which differs most often, is compared first.
#[derive(Clone, Copy, PartialEq, Eq)]
pub struct PeriodKey {
    pub first: u32,
    pub code: u32,
    pub number: u32,
    pub kind: u8,
}

impl From<RestrictionType> for TypeKey {
    ghost from_gives = { λ t key. key ≡ type_key t };

    fn from(t: RestrictionType) -> TypeKey {
        TypeKey {
            number: t.number,
            object: t.object,
        }
    }
}

impl From<Rule> for RuleKey {
    ghost from_gives = { λ r key. key ≡ rule_key r };

    fn from(r: Rule) -> RuleKey {
        RuleKey {
            sequence: r.sequence,
            number: r.number,
            object: r.object,
        }
    }
}

impl From<Row> for RuleKey {
    ghost from_gives = { λ w key. key ≡ row_key w };

    fn from(w: Row) -> RuleKey {
        RuleKey {
            sequence: w.sequence,
            number: w.number,
            object: w.object,
        }
    }
}

impl From<Period> for PeriodKey {
    ghost from_gives = { λ p key. key ≡ period_key p };

    fn from(p: Period) -> PeriodKey {
        PeriodKey {
            first: p.first,
            code: p.code,
            number: p.number,
            kind: p.kind,
        }
    }
}

// ---- What is asked of a record. Enums of tests, and no closures: specs/ speak of `meets q`, and a question is handed
// on from refusals and edits to book's passes; of a closure each call would show anew which test it is.

// Outside: the type of that key, whose period does not hold the day.
#[derive(Clone, Copy)]
pub enum TypeAsk {
    Any,
    Named(TypeKey),
    Outside(TypeKey, u32),
}

// Fills and Other: the rule of the row, with exactly the criteria that the row fills, or with others.
#[derive(Clone, Copy)]
pub enum RuleAsk {
    Any,
    Named(RuleKey),
    Fills(Row),
    Other(Row),
}

// Same and OfRule: the row itself, and the rows of a rule.
#[derive(Clone, Copy)]
pub enum RowAsk {
    Any,
    Same(Row),
    OfRule(RuleKey),
}

// Clash: of that kind, number and attribute, and shares a day. Outside: of that key, whose days don't hold the day.
#[derive(Clone, Copy)]
pub enum PeriodAsk {
    Any,
    Clash(Period),
    Named(PeriodKey),
    Outside(PeriodKey, u32),
}

// Held: the instruction of that reference, with that hold on. The hold is a number for the reason at `held_since`.
#[derive(Clone, Copy)]
pub enum InstructionAsk {
    Any,
    Named(u32),
    Held(u32, u8),
}

// A record of a table of which something can be asked.
pub trait Record: Place {
    // What it says without its depository, in the written meaning, and its table.
    ghost Said: { Type 0 };

    ghost table: { Table Self Said };

    // What can be asked, when what is said is as asked, and what every record is.
    type Ask: Copy;

    ghost asked: { Self.Ask → Said → Bool };

    ghost any: { Self.Ask };

    // Whether the record is as asked.
    fn meets(self, q: Self::Ask) -> bool
        ensures { result ≡ asked q (table.rec self) };

    // What every record is.
    fn any() -> Self::Ask
        ensures { result ≡ any };

    ghost stands: { (table.places ≡ Self.PLACES) × (table.quota ≡ Self.QUOTA) × (table.at ≡ Self.at) × (table.csd ≡ Self.csd) };

    ghost all: { (x : Said) → asked any x ≡ true };

    // A count of them is a u16.
    ghost few: { Self.PLACES < 65536 };
}

// ---- The criteria that a row fills (document 01, 'Records').

// Criterion i belongs to the criteria.
pub fn belongs(criteria: u32, i: u8) -> bool
    ensures { result ≡ belongs criteria i }
{
    i < 32 && criteria >> i & 1 == 1
}

// How many values are filled.
pub fn filled_count(v: [u32; 10]) -> usize
    ensures { result ≡ filled_count v }
{
    v.iter().filter(|&&x| 0 < x).count()
}

// Each of the ten criteria belongs to the criteria exactly if its value is filled.
fn all_agree(criteria: u32, v: [u32; 10]) -> bool
    ensures { result ≡ all_below (agrees criteria v) 10 }
{
    (0..10).all(|i: u8| belongs(criteria, i) == (0 < v[usize::from(i)]))
}

// A row fills exactly as many fields as its rule has criteria, and the same ones.
pub fn fills(criteria: u32, v: [u32; 10]) -> bool
    ensures { result ≡ eqb criteria (filled v) }
{
    if criteria.count_ones() as usize != filled_count(v) {
        return false;
    }
    // `&`, since the proof takes the two as one value; both are pure.
    (criteria < 1024) & all_agree(criteria, v)
}

// ---- Whether a record is as asked (document 01, 'Records'). Each test names the key or the days of its own record in
// one expression: one function over all records would take them from methods of these same lines.

// The day is before the record's first or after its present last. `matching`, which stands above, has `covers`, the
// opposite: each is one expression.
fn is_outside(day: u32, first: u32, last: u32) -> bool
    ensures { result ≡ outside day first last }
{
    !(first..=last).contains(&day)
}

#[tactic(auto, unfolding(crate::specs::Asks::type_meets, crate::specs::Said::type_of, meaning::specs::Keys::is_type))]
fn is_type(t: RestrictionType, key: TypeKey) -> bool
    ensures { result ≡ type_meets (TypeAsk.Named key) (type_of t) }
{
    TypeKey::from(t) == key
}

#[tactic(auto, unfolding(crate::specs::Asks::type_meets, crate::specs::Said::type_of, meaning::specs::Refusals::type_outside))]
fn type_outside(t: RestrictionType, key: TypeKey, day: u32) -> bool
    ensures { result ≡ type_meets (TypeAsk.Outside key day) (type_of t) }
{
    is_type(t, key) && is_outside(day, t.first, t.last)
}

impl Record for RestrictionType {
    ghost use Rattle.records.specs.declared.TypeAsk.{TypeAsk};

    ghost Said = { M.TypeRecord };

    ghost table = { table of_types };

    ghost asked = { type_meets };

    ghost any = { TypeAsk.Any };

    ghost stands = { (refl, refl, refl, refl) };

    ghost all = { type_all };

    ghost few = { Prim.search rules };

    type Ask = TypeAsk;

    fn meets(self, q: TypeAsk) -> bool {
        match q {
            TypeAsk::Any => true,
            TypeAsk::Named(key) => is_type(self, key),
            TypeAsk::Outside(key, day) => type_outside(self, key, day),
        }
    }

    fn any() -> TypeAsk {
        TypeAsk::Any
    }
}

#[tactic(auto, unfolding(crate::specs::Said::rule_of, meaning::specs::Keys::is_rule))]
fn is_rule(t: Rule, key: RuleKey) -> bool
    ensures { result ≡ is_rule key.number key.object key.sequence (rule_of t) }
{
    RuleKey::from(t) == key
}

#[tactic(auto, unfolding(crate::specs::Asks::rule_meets, crate::specs::Said::row_of, crate::specs::Said::rule_of, meaning::specs::Sound::fills_rule))]
fn fills_rule(t: Rule, w: Row) -> bool
    ensures { result ≡ rule_meets (RuleAsk.Fills w) (rule_of t) }
{
    is_rule(t, RuleKey::from(w)) && fills(t.criteria, w.values)
}

#[tactic(auto, unfolding(crate::specs::Asks::rule_meets, crate::specs::Said::row_of, crate::specs::Said::rule_of, meaning::specs::Refusals::other_criteria))]
fn other_criteria(t: Rule, w: Row) -> bool
    ensures { result ≡ rule_meets (RuleAsk.Other w) (rule_of t) }
{
    is_rule(t, RuleKey::from(w)) && !fills(t.criteria, w.values)
}

impl Record for Rule {
    ghost use Rattle.records.specs.declared.RuleAsk.{RuleAsk};

    ghost Said = { M.Rule };

    ghost table = { table of_rules };

    ghost asked = { rule_meets };

    ghost any = { RuleAsk.Any };

    ghost stands = { (refl, refl, refl, refl) };

    ghost all = { rule_all };

    ghost few = { Prim.search rules };

    type Ask = RuleAsk;

    fn meets(self, q: RuleAsk) -> bool {
        match q {
            RuleAsk::Any => true,
            RuleAsk::Named(key) => is_rule(self, key),
            RuleAsk::Fills(w) => fills_rule(self, w),
            RuleAsk::Other(w) => other_criteria(self, w),
        }
    }

    fn any() -> RuleAsk {
        RuleAsk::Any
    }
}

// The lowest index at which two rows' values differ, 10 where they are the same. Rows are compared by `==`, which tells
// only whether they are the same; for an order of rows by their values.
pub fn first_difference(a: [u32; 10], b: [u32; 10]) -> u8
    ensures { result ≡ first_difference a b }
{
    for i in 0..10u8 {
        let k = i as usize;
        if a[k] != b[k] {
            return i;
        }
    }
    10
}

#[tactic(auto, unfolding(crate::specs::Asks::row_meets, crate::specs::Said::row_of, meaning::specs::Keys::of_rule))]
fn of_rule(t: Row, key: RuleKey) -> bool
    ensures { result ≡ row_meets (RowAsk.OfRule key) (row_of t) }
{
    RuleKey::from(t) == key
}

#[tactic(auto, unfolding(crate::specs::Asks::row_meets, crate::specs::Said::row_of, meaning::specs::Keys::is_row))]
fn is_row(t: Row, w: Row) -> bool
    ensures { result ≡ row_meets (RowAsk.Same w) (row_of t) }
{
    of_rule(t, RuleKey::from(w)) && w.values == t.values
}

impl Record for Row {
    ghost use Rattle.records.specs.declared.RowAsk.{RowAsk};

    ghost Said = { M.Row };

    ghost table = { table of_rows };

    ghost asked = { row_meets };

    ghost any = { RowAsk.Any };

    ghost stands = { (refl, refl, refl, refl) };

    ghost all = { row_all };

    ghost few = { Prim.search rules };

    type Ask = RowAsk;

    fn meets(self, q: RowAsk) -> bool {
        match q {
            RowAsk::Any => true,
            RowAsk::Same(w) => is_row(self, w),
            RowAsk::OfRule(key) => of_rule(self, key),
        }
    }

    fn any() -> RowAsk {
        RowAsk::Any
    }
}

#[tactic(auto, unfolding(crate::specs::Asks::period_meets, crate::specs::Said::period_of, meaning::specs::Keys::is_period))]
fn is_period(t: Period, key: PeriodKey) -> bool
    ensures { result ≡ period_meets (PeriodAsk.Named key) (period_of t) }
{
    PeriodKey::from(t) == key
}

#[tactic(auto, unfolding(crate::specs::Asks::period_meets, crate::specs::Said::period_of, meaning::specs::Keys::is_period, meaning::specs::Refusals::period_outside))]
fn period_outside(t: Period, key: PeriodKey, day: u32) -> bool
    ensures { result ≡ period_meets (PeriodAsk.Outside key day) (period_of t) }
{
    is_period(t, key) && is_outside(day, t.first, t.last)
}

// First and last day both count. Field by field: a struct of kind, number and attribute would be compared here alone.
// `&`, since the proof takes the tests as one value; all are pure.
#[tactic(auto, unfolding(crate::specs::Asks::period_meets, crate::specs::Said::period_of, meaning::specs::Keys::clash))]
fn clashes(t: Period, p: Period) -> bool
    ensures { result ≡ period_meets (PeriodAsk.Clash p) (period_of t) }
{
    let attribute = t.code / 100 == p.code / 100;
    let of = (t.kind == p.kind) & (t.number == p.number) & attribute;
    of & (t.first <= p.last) & (p.first <= t.last)
}

impl Record for Period {
    ghost use Rattle.records.specs.declared.PeriodAsk.{PeriodAsk};

    ghost Said = { M.Period };

    ghost table = { table of_periods };

    ghost asked = { period_meets };

    ghost any = { PeriodAsk.Any };

    ghost stands = { (refl, refl, refl, refl) };

    ghost all = { period_all };

    ghost few = { Prim.search rules };

    type Ask = PeriodAsk;

    fn meets(self, q: PeriodAsk) -> bool {
        match q {
            PeriodAsk::Any => true,
            PeriodAsk::Clash(p) => clashes(self, p),
            PeriodAsk::Named(key) => is_period(self, key),
            PeriodAsk::Outside(key, day) => period_outside(self, key, day),
        }
    }

    fn any() -> PeriodAsk {
        PeriodAsk::Any
    }
}

// The day since which a hold is on; 0 where it is off, as in the place and in the written meaning. The hold is a
// processing's number, as a line gives it: another number is no hold, and an enum would ask more of callers.
#[tactic(auto, unfolding(crate::specs::Said::instruction_of, meaning::specs::Pending::held_since))]
pub fn held_since(t: Kept, hold: u8) -> u32
    ensures { result ≡ held_since (instruction_of t) hold }
{
    let validation = hold == RestrictionType::VALIDATION_HOLD;
    let party = hold == RestrictionType::PARTY_HOLD;
    if validation {
        t.validating
    } else if party {
        t.holding
    } else {
        0
    }
}

// `&`, since the proof takes the two as one value; both are pure.
#[tactic(auto, unfolding(crate::specs::Asks::instruction_meets, crate::specs::Said::instruction_of, meaning::specs::Pending::held_by, meaning::specs::Pending::is_held, meaning::specs::Keys::is_kept))]
fn is_held(t: Kept, reference: u32, hold: u8) -> bool
    ensures { result ≡ instruction_meets (InstructionAsk.Held reference hold) (instruction_of t) }
{
    (t.reference == reference) & (held_since(t, hold) != 0)
}

impl Record for Kept {
    ghost use Rattle.records.specs.declared.InstructionAsk.{InstructionAsk};

    ghost Said = { M.Kept };

    ghost table = { kept };

    ghost asked = { instruction_meets };

    ghost any = { InstructionAsk.Any };

    ghost stands = { (refl, refl, refl, refl) };

    ghost all = { instruction_all };

    ghost few = { Prim.search rules };

    type Ask = InstructionAsk;

    fn meets(self, q: InstructionAsk) -> bool {
        match q {
            InstructionAsk::Any => true,
            InstructionAsk::Named(reference) => self.reference == reference,
            InstructionAsk::Held(reference, hold) => is_held(self, reference, hold),
        }
    }

    fn any() -> InstructionAsk {
        InstructionAsk::Any
    }
}
