// Refusals 6 to 10 and 13 of a command over the lent book: the first whose condition holds (document 01, 'Refused
// lines'; document 02, request c).
#![tactic(auto)]

ghost use Rattle.std.specs.Prelude.{◌≡◌, leb, length};
ghost use Rattle.tables.specs.Count.{has};
ghost use Rattle.tables.specs.Table.{list_of};
ghost use Rattle.meaning.specs.Records.{add_type, end_type, add_rule, reorder, delete_rule, add_row, delete_row, add_period, end_period};
ghost use Rattle.meaning.specs.Refusals.{first_of, conditions, refusal};
ghost use Rattle.records.specs.Said.{type_of, rule_of, row_of, period_of};
ghost use Rattle.book.specs.Lone.{lone_book};
ghost use Rattle.commands.specs.Asked.{asked};
ghost use Rattle.refusals.specs.Earliest.{Earliest};

use book::count;
use commands::{Command, What};
use meaning::Refusal;
use places::{Period, Place, RestrictionType, Row, Rule};
use records::{PeriodAsk, PeriodKey, Record, RowAsk, RuleAsk, RuleKey, TypeAsk, TypeKey};

// The refusal whose condition is the first that holds, if one does.
fn first_of(conditions: &[(Refusal, bool)]) -> Option<Refusal>
    ensures { result ≡ first_of conditions.now }
{
    for &(refusal, holds) in conditions {
        if holds {
            return Some(refusal);
        }
    }
    None
}

// The lists of a depository in the lent book, on the day of a line.
#[derive(Clone, Copy)]
struct Lists<'a> {
    book: &'a [u8],
    csd: u8,
    day: u32,
}

impl<'a> Lists<'a> {
    // ---- What they have, and whether they are full.

    // By the count, as the meaning's `has`.
    fn has<P: Record>(self, q: P::Ask) -> bool
        ensures { result ≡ has (P.asked q) (list_of P.table self.entry.csd self.entry.book.now) }
    {
        0 < count::<P>(self.book, self.csd, q)
    }

    fn is_full<P: Record>(self) -> bool
        ensures { result ≡ leb P.table.quota (length (list_of P.table self.entry.csd self.entry.book.now)) }
    {
        P::QUOTA <= count::<P>(self.book, self.csd, P::any())
    }

    // ---- Refusals 6 to 10 of each letter, in order; of R 13 after 8 and before 10. A letter has its own conditions,
    // as in the written meaning: one function over several letters would be told which to leave out.

    fn refuse_add_type(self, r: RestrictionType) -> Option<Refusal>
        ensures { result ≡ refusal (lone_book self.entry.csd self.entry.book.now) (add_type self.entry.day (type_of r)) }
    {
        let held = self.has::<RestrictionType>(TypeAsk::Named(TypeKey::from(r)));
        let full = self.is_full::<RestrictionType>();
        first_of(&[
            (Refusal::TooEarly, r.first <= self.day),
            (Refusal::AlreadyHeld, held),
            (Refusal::QuotaFull, full),
        ])
    }

    fn refuse_end_type(self, key: TypeKey, last: u32) -> Option<Refusal>
        ensures { result ≡ refusal (lone_book self.entry.csd self.entry.book.now) (end_type self.entry.day key.number key.object last) }
    {
        let held = self.has::<RestrictionType>(TypeAsk::Named(key));
        let outside = self.has::<RestrictionType>(TypeAsk::Outside(key, last));
        first_of(&[
            (Refusal::TooEarly, last < self.day),
            (Refusal::NotFound, !held),
            (Refusal::Conflict, outside),
        ])
    }

    // Either end of the rule's period is outside that of its type.
    fn refuse_add_rule(self, r: Rule) -> Option<Refusal>
        ensures { result ≡ refusal (lone_book self.entry.csd self.entry.book.now) (add_rule self.entry.day (rule_of r)) }
    {
        let key = TypeKey {
            number: r.number,
            object: r.object,
        };
        let typed = self.has::<RestrictionType>(TypeAsk::Named(key));
        let held = self.has::<Rule>(RuleAsk::Named(RuleKey::from(r)));
        let begins_outside = self.has::<RestrictionType>(TypeAsk::Outside(key, r.first));
        let ends_outside = self.has::<RestrictionType>(TypeAsk::Outside(key, r.last));
        // `|` and no `||`, since both sides are known: so the proof needs no branch.
        let leaves = begins_outside | ends_outside;
        let full = self.is_full::<Rule>();
        first_of(&[
            (Refusal::TooEarly, r.first <= self.day),
            (Refusal::NotFound, !typed),
            (Refusal::AlreadyHeld, held),
            (Refusal::LeavesType, leaves),
            (Refusal::QuotaFull, full),
        ])
    }

    fn refuse_reorder(self, key: RuleKey, new: u8) -> Option<Refusal>
        ensures { result ≡ refusal (lone_book self.entry.csd self.entry.book.now) (reorder key.number key.object key.sequence new) }
    {
        let held = self.has::<Rule>(RuleAsk::Named(key));
        let moved = RuleKey {
            sequence: new,
            ..key
        };
        let taken = self.has::<Rule>(RuleAsk::Named(moved));
        first_of(&[(Refusal::NotFound, !held), (Refusal::AlreadyHeld, taken)])
    }

    fn refuse_delete_rule(self, key: RuleKey) -> Option<Refusal>
        ensures { result ≡ refusal (lone_book self.entry.csd self.entry.book.now) (delete_rule key.number key.object key.sequence) }
    {
        let held = self.has::<Rule>(RuleAsk::Named(key));
        let rows = self.has::<Row>(RowAsk::OfRule(key));
        first_of(&[(Refusal::NotFound, !held), (Refusal::Conflict, rows)])
    }

    fn refuse_add_row(self, w: Row) -> Option<Refusal>
        ensures { result ≡ refusal (lone_book self.entry.csd self.entry.book.now) (add_row (row_of w)) }
    {
        let ruled = self.has::<Rule>(RuleAsk::Named(RuleKey::from(w)));
        let held = self.has::<Row>(RowAsk::Same(w));
        let other = self.has::<Rule>(RuleAsk::Other(w));
        let full = self.is_full::<Row>();
        first_of(&[
            (Refusal::NotFound, !ruled),
            (Refusal::AlreadyHeld, held),
            (Refusal::Conflict, other),
            (Refusal::QuotaFull, full),
        ])
    }

    fn refuse_delete_row(self, w: Row) -> Option<Refusal>
        ensures { result ≡ refusal (lone_book self.entry.csd self.entry.book.now) (delete_row (row_of w)) }
    {
        let held = self.has::<Row>(RowAsk::Same(w));
        first_of(&[(Refusal::NotFound, !held)])
    }

    fn refuse_add_period(self, p: Period) -> Option<Refusal>
        ensures { result ≡ refusal (lone_book self.entry.csd self.entry.book.now) (add_period self.entry.day (period_of p)) }
    {
        let clash = self.has::<Period>(PeriodAsk::Clash(p));
        let full = self.is_full::<Period>();
        first_of(&[
            (Refusal::TooEarly, p.first <= self.day),
            (Refusal::AlreadyHeld, clash),
            (Refusal::QuotaFull, full),
        ])
    }

    // The period named is p's, whose last day is the new one.
    fn refuse_end_period(self, p: Period) -> Option<Refusal>
        ensures { result ≡ refusal (lone_book self.entry.csd self.entry.book.now) (end_period self.entry.day p.kind p.number p.code p.first p.last) }
    {
        let key = PeriodKey::from(p);
        let held = self.has::<Period>(PeriodAsk::Named(key));
        let outside = self.has::<Period>(PeriodAsk::Outside(key, p.last));
        first_of(&[
            (Refusal::TooEarly, p.last < self.day),
            (Refusal::NotFound, !held),
            (Refusal::Conflict, outside),
        ])
    }
}

// ---- Of a command.

// The earliest of these whose condition holds over the depository's lone book, if one does: no condition of the list is
// a question's. A match on the command, whose kinds hold different data.
#[tactic(auto, using(crate::proofs::Refuse::refused_as, crate::proofs::Refuse::refused_first), unfolding(commands::specs::Asked::asked_by, meaning::specs::Refusals::refusal))]
pub fn refusal(b: &[u8], c: Command) -> Option<Refusal>
    ensures meant { result ≡ refusal (lone_book c.csd b.now) (asked c) }
    ensures earliest { Earliest (conditions (lone_book c.csd b.now) (asked c)) result }
{
    let lists = Lists {
        book: b,
        csd: c.csd,
        day: c.day,
    };
    let what = c.what;
    match what {
        What::AddType(t) => lists.refuse_add_type(t),
        What::EndType(key, last) => lists.refuse_end_type(key, last),
        What::AddRule(r) => lists.refuse_add_rule(r),
        What::Reorder(key, new) => lists.refuse_reorder(key, new),
        What::DeleteRule(key) => lists.refuse_delete_rule(key),
        What::AddRow(w) => lists.refuse_add_row(w),
        What::DeleteRow(w) => lists.refuse_delete_row(w),
        What::AddPeriod(p) => lists.refuse_add_period(p),
        What::EndPeriod(p) => lists.refuse_end_period(p),
        What::Ask(_, _) => None,
    }
}
