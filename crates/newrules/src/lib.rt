// Which rules are new on a question's day (document 02, request d): those whose first current day is this day, that day
// being the later of the rule's and its type's first days. A pass over the types marks which began on the day and which
// before it; one over the rules marks, of the rules of which a row matches, those that are new.
#![tactic(auto)]

ghost use Rattle.std.specs.Prelude.{◌≡◌, length};
ghost use Rattle.tables.specs.Keyed.{marked};
ghost use Rattle.newrules.specs.NewRules.{time_of, when_begun, begun_key, first_key, has_begun, types_begun, rule_new, ruled_key, new_matches, NewMarked};

use commands::Question;
use marks::{is_marked, key};
use matching::rule_key;
use passes::{Pass, run, table};
use places::{RestrictionType, Rule};

// The keys of a type, one for each time when it may have begun, and 0.
const TIMES: u8 = 3;

// The size of the table of types: three times here, as judge has three signs.
const BEGUN_KEYS: usize = 300;

// When a type began: on the question's day, or before it.
#[derive(Clone, Copy)]
pub enum Begun {
    OnTheDay = 1,
    Before = 2,
}

// A function of its own for the reason at judge's `signed_key`: without a name each caller would state the size.
fn begun_key(number: u8, when: Begun) -> usize
    ensures { result ≡ begun_key number (time_of when) }
{
    key::<TIMES>(u32::from(number), when as u8)
}

// When a type began that does not begin after the day.
fn begun_when(q: Question, t: RestrictionType) -> Begun
    ensures { time_of result ≡ when_begun t.first q.day }
{
    if t.first == q.day {
        Begun::OnTheDay
    } else {
        Begun::Before
    }
}

// 1. The types that began on the day or before it.

// The marks of when each type began, of those that have.
#[derive(Clone, Copy)]
struct BegunTypes {
    q: Question,
}

impl Pass for BegunTypes {
    type Record = RestrictionType;

    ghost on = { λ s t. has_begun s.q t };

    ghost key = { λ s t. first_key s.q t };

    // A type of the question's object that does not begin after the day.
    fn entry(&self, t: RestrictionType, _t: &[u8]) -> Option<(usize, u8)> {
        let begun = t.object == self.q.object && t.first <= self.q.day;
        begun.then_some((begun_key(t.number, begun_when(self.q, t)), 1))
    }
}

fn types_begun(b: &[u8], q: Question) -> [u8; BEGUN_KEYS]
    ensures { marked result ≡ types_begun b.now q }
{
    table(&BegunTypes { q }, b, q.csd)
}

// 2. The rules that are new.

// A rule that does not begin after the day is new if its type begins on the day, or if it does and its type began
// before. By | and &: each test is a call, and the proof takes them together.
fn is_new(q: Question, begun: &[u8], r: Rule) -> bool
    ensures { result ≡ rule_new q (marked begun.now) r }
{
    let on_the_day = is_marked(begun, begun_key(r.number, Begun::OnTheDay));
    let before = is_marked(begun, begun_key(r.number, Begun::Before));
    on_the_day | before & (r.first == q.day)
}

// The marks of the new rules of which a row matches, by when each type began and the rules of which a row matches.
#[derive(Clone, Copy)]
struct NewRules<'a> {
    q: Question,
    begun: &'a [u8],
    rows: &'a [u8],
}

impl<'a> Pass for NewRules<'a> {
    type Record = Rule;

    ghost on = { λ s r. new_matches s.q (marked s.begun.now) (marked s.rows.now) r };

    ghost key = { λ s r. ruled_key r };

    // A new rule of the question's object of which a row matches. By `&`: each test is a call, and the proof takes them
    // together.
    fn entry(&self, r: Rule, _t: &[u8]) -> Option<(usize, u8)> {
        let k = rule_key(r.number, r.sequence);
        let matched = is_marked(self.rows, k);
        let new = (r.object == self.q.object) & (is_new(self.q, self.begun, r) & matched);
        new.then_some((k, 1))
    }
}

// Marks in a lent table, whatever stood there, those of the rules marked in rows that are new on the question's day.
// Not of judge's `Matched`, whose rows are what is left in this table.
pub fn mark_new_rules(t: &mut [u8], b: &[u8], q: Question, rows: &[u8])
    ensures { NewMarked (length t.old) b.now q (types_begun b.now q) (marked rows.now) t.new }
{
    let begun = types_begun(b, q);
    let new = NewRules {
        q,
        begun: &begun,
        rows,
    };
    run(&new, t, b, q.csd);
}
