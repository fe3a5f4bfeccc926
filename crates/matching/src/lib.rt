// Which rules have a row that matches a question (document 01, 'How a question is judged'): the codes that the
// question's party, account and security bear, then the rows.
#![tactic(auto)]

ghost use Rattle.std.specs.Prelude.{◌≡◌, ◌/◌, ◌%◌, ◌||◌, length, eqb};
ghost use Rattle.meaning.specs.Judging.{covers};
ghost use Rattle.marks.specs.Flags.{with_flag, flagged};
ghost use Rattle.matching.specs.MatchedRows.{kinds, code_key, rule_key, code_entries, sought, borne_by, period_key, row_key, codes_borne, tests, values_met, row_matches, RowsMarked};

use basics::byte_at;
use commands::Question;
use marks::{Flags, Four, blank, is_flagged, key, with_flag};
use passes::{Pass, run};
use places::{Period, Row};

// The keys of a code, one for each kind and 0; in the table of codes they are the flags of one entry: the number
// of `Four` once more, since a const argument is not computed.
const KINDS: u8 = 4;

// The sequences of a type's rules are below this number.
pub const SEQUENCES: u8 = 100;

// The sizes of the tables.
const CODE_ENTRIES: usize = 10000;

pub const RULE_KEYS: usize = 10000;

// First and last day both count.
pub fn covers(first: u32, last: u32, day: u32) -> bool
    ensures { result ≡ covers first last day }
{
    first <= day && day <= last
}

// The key of a rule of the question's object.
pub fn rule_key(number: u8, sequence: u8) -> usize
    ensures { result ≡ rule_key number sequence }
{
    key::<SEQUENCES>(u32::from(number), sequence)
}

// 1. The codes that the question's party, account and security bear on the day.

// The question's number of a kind.
#[tactic(auto, unfolding(crate::specs::MatchedRows::sought))]
fn sought(q: Question, kind: u8) -> u32
    ensures { result ≡ sought q kind }
{
    match kind {
        Period::PARTY => q.party,
        Period::ACCOUNT => q.account,
        _ => q.security,
    }
}

// The flags of the codes that a question bears.
#[derive(Clone, Copy)]
struct Codes {
    q: Question,
}

impl Pass for Codes {
    type Record = Period;

    ghost on = { λ s p. borne_by s.q p };

    ghost key = { λ s p. period_key p / kinds };

    ghost entry = { λ s p m. with_flag (period_key p % kinds) m };

    // A period of the question's party, account or security that covers the day.
    fn entry(&self, p: Period, t: &[u8]) -> Option<(usize, u8)> {
        let k = key::<KINDS>(p.code, p.kind);
        let at = k / Four::N;
        let borne = p.number == sought(self.q, p.kind) && covers(p.first, p.last, self.q.day);
        borne.then_some((at, with_flag::<Four>(byte_at(t, at), k)))
    }
}

fn codes_borne(t: &mut [u8], b: &[u8], q: Question)
    requires { length t.old ≡ code_entries }
    ensures { flagged kinds t.new ≡ codes_borne b.now q }
{
    run(&Codes { q }, t, b, q.csd);
}

// 2. The rules of which a row matches. A row fills exactly its rule's criteria, so its filled values tell which are
// tested.

// Whether a value is empty, or the question's own.
fn is_met(v: u32, asked: u32) -> bool
    ensures { result ≡ (eqb v 0 || eqb asked v) }
{
    v == 0 || asked == v
}

// Whether a value is empty, or a code of the kind that is borne.
fn is_borne(v: u32, kind: u8, codes: &[u8]) -> bool
    ensures { result ≡ (eqb v 0 || flagged kinds codes.now (code_key v kind)) }
{
    v == 0 || is_flagged::<Four>(codes, key::<KINDS>(v, kind))
}

// Whether each filled value is met; the codes, which are looked up, are asked last. By `&` within a group, since the
// proof takes its tests together.
fn values_met(values: [u32; 10], q: Question, codes: &[u8]) -> bool
    ensures { result ≡ values_met (tests q (flagged kinds codes.now)) values }
{
    // The criteria in their order (document 01, 'Lines').
    let [
        role,
        movement,
        payment,
        transaction,
        security,
        account,
        party_code,
        account_code,
        security_code,
        currency,
    ] = values;
    let own = is_met(role, q.role)
        & is_met(movement, q.movement)
        & is_met(payment, q.payment)
        & is_met(transaction, q.transaction)
        & is_met(security, q.security)
        & is_met(account, q.account)
        & is_met(currency, q.currency);
    own && is_borne(party_code, Period::PARTY, codes)
        & is_borne(account_code, Period::ACCOUNT, codes)
        & is_borne(security_code, Period::SECURITY, codes)
}

// The marks of the rules of which a row matches a question, by the codes that it bears.
#[derive(Clone, Copy)]
struct Rows<'a> {
    q: Question,
    codes: &'a [u8],
}

impl<'a> Pass for Rows<'a> {
    type Record = Row;

    ghost on = { λ s w. row_matches s.q (flagged kinds s.codes.now) w };

    ghost key = { λ s w. row_key w };

    // A row without a filled value matches; a sound book has none.
    #[tactic(auto, unfolding(crate::specs::MatchedRows::row_matches))]
    fn entry(&self, w: Row, _t: &[u8]) -> Option<(usize, u8)> {
        let matches = w.object == self.q.object && values_met(w.values, self.q, self.codes);
        matches.then_some((rule_key(w.number, w.sequence), 1))
    }
}

// Marks the rules of which a row matches in a lent table, whatever stood there.
pub fn mark_rules(t: &mut [u8], b: &[u8], q: Question)
    ensures { RowsMarked (length t.old) b.now q (codes_borne b.now q) t.new }
{
    let mut codes: [u8; CODE_ENTRIES] = blank();
    codes_borne(&mut codes, b, q);
    run(&Rows { q, codes: &codes }, t, b, q.csd);
}
