// The verdict on a question over the lent book (document 01, 'How a question is judged'), by the marks of the rules of
// which a row matches (crate `matching`, stages 1 and 2): a pass over the rules, one over the types, and one over the
// rules for each type that the verdict names. A pass goes from each place of the depository to its next. A scope says
// which rules count and which types are passed over (document 02, request d).
#![tactic(auto)]

ghost use Rattle.std.specs.Prelude.{◌≡◌, true, cond, eqb, get_or, length, unwrap_or, Some, None};
ghost use Rattle.meaning.specs.Judging.{judged};
ghost use Rattle.meaning.specs.Pending.{exempted};
ghost use Rattle.meaning.specs.Sound.{sound_lone};
ghost use Rattle.book.specs.Lone.{lone_book};
ghost use Rattle.commands.specs.Asked.{question_of};
ghost use Rattle.matching.specs.MatchedRows.{rule_keys};
ghost use Rattle.tables.specs.Count.{lesser};
ghost use Rattle.tables.specs.Keyed.{marked};
ghost use Rattle.judge.specs.Stages.{sign_key, type_key, sign_keys, type_keys, processings, sequences, type_numbers, signed_key, typed_key, rule_matches, rule_of_type, rules_matched, signs_matched, type_applies, types_named, type_exempted, types_exempted, judged_rule, none_listed, Listed, first_rule, decided, verdict, judged_by};
ghost use Rattle.judge.specs.Within.{whole, none_passed, type_passed, rows_within, judged_within, exempted_within, lone_within, lone_counted};

use basics::byte_at;
use commands::Question;
use marks::{blank, is_marked, key};
use matching::{RULE_KEYS, SEQUENCES, covers, mark_rules, rule_key};
use meaning::{Deciding, Verdict};
use newrules::mark_new_rules;
use passes::{Pass, table};
use places::{RestrictionType, Rule};
use rules::{ListedRule, first_positive};

// The keys of a type or of a sequence, one for each sign of a rule, and 0: a size, and no kind.
const SIGNS: u8 = 3;

// The sizes of the tables of marks, by their keys: one is by a rule's sequence and the other by a type's number. The
// list of a type's rules, by sequence, has SEQUENCES.
const SIGN_KEYS: usize = 300;

const TYPE_KEYS: usize = 300;

const PROCESSINGS: usize = 4;

// The size of the tables by type number, 1 to 99; `memory` has it as a byte, which its loops count to.
const TYPE_NUMBERS: usize = 100;

// Where tests of several calls are joined by `&` and `|`, the proof takes them together.

// What counts where a question is judged. The flags stay: each is asked on its own, and none has a value beside it.
#[derive(Clone, Copy)]
pub struct Scope {
    // Only the rules that are new on the question's day count.
    pub fresh: bool,
    // The validation hold is on, so the types of that processing are passed over; and the same for the party hold.
    pub validating: bool,
    pub holding: bool,
}

impl Scope {
    // Nothing is left out.
    pub fn whole() -> Scope
        ensures { result ≡ whole }
    {
        Scope {
            fresh: false,
            validating: false,
            holding: false,
        }
    }
}

// What is found by a scope: the verdict, and a mark at the number of each current type of the question's object of
// which a negative rule that counts matches.
#[derive(Clone, Copy)]
pub struct Judgement {
    pub verdict: Verdict,
    pub exempted: [u8; TYPE_NUMBERS],
}

// The smaller of two numbers, where 0 stands for none: an entry of a table of bytes, so that an Option would be turned
// into this byte and back.
fn lesser(a: u8, b: u8) -> u8
    ensures { result ≡ lesser a b }
{
    if a == 0 {
        return b;
    }
    if b == 0 {
        return a;
    }
    if a < b { a } else { b }
}

// The key of a type, or of a type's rule by its sequence, with the sign of a rule: `marks::key` at this table's size,
// as `matching::rule_key` is at the rules' table. Two functions, since without a name each caller would state the size.
fn signed_key(number: u8, sign: u8) -> usize
    ensures { result ≡ type_key number sign }
{
    key::<SIGNS>(u32::from(number), sign)
}

// 3. The signs of which a rule of a type matches.

// A rule counts only while its own period holds the day, a negative one too.
fn rule_matches(q: Question, rows: &[u8], r: Rule) -> bool
    ensures { result ≡ rule_matches q (marked rows.now) r }
{
    let current = covers(r.first, r.last, q.day);
    let matched = is_marked(rows, rule_key(r.number, r.sequence));
    (r.object == q.object) & (current & matched)
}

// The marks of the signs of which a rule of each type matches.
#[derive(Clone, Copy)]
struct Signs<'a> {
    q: Question,
    rows: &'a [u8],
}

impl<'a> Pass for Signs<'a> {
    type Record = Rule;

    ghost on = { λ s r. rule_matches s.q (marked s.rows.now) r };

    ghost key = { λ s r. typed_key r };

    fn entry(&self, r: Rule, _before: &[u8]) -> Option<(usize, u8)> {
        rule_matches(self.q, self.rows, r).then_some((signed_key(r.number, r.sign), 1))
    }
}

// 4. The lowest type of each processing.

// A type is passed over if its number is marked, or if the hold of its processing is on.
fn passed_over(s: Scope, passed: &[u8], t: RestrictionType) -> bool
    ensures { result ≡ type_passed s (marked passed.now) t }
{
    let validating = s.validating & (t.processing == RestrictionType::VALIDATION_HOLD);
    let holding = s.holding & (t.processing == RestrictionType::PARTY_HOLD);
    is_marked(passed, usize::from(t.number)) | (validating | holding)
}

// The lowest type of each processing that applies, by the types passed over and the signs of which a rule matches.
#[derive(Clone, Copy)]
struct Named<'a> {
    q: Question,
    scope: Scope,
    passed: &'a [u8],
    signs: &'a [u8],
}

impl<'a> Pass for Named<'a> {
    type Record = RestrictionType;

    ghost on = { λ s t. type_applies s.q (type_passed s.scope (marked s.passed.now)) (marked s.signs.now) t };

    ghost key = { λ s t. t.processing };

    ghost entry = { λ s t m. lesser t.number m };

    // A current type that is not passed over, of which a positive rule matches and no negative one does, wherever it
    // stands in sequence.
    fn entry(&self, t: RestrictionType, before: &[u8]) -> Option<(usize, u8)> {
        let current = covers(t.first, t.last, self.q.day);
        let positive = is_marked(self.signs, signed_key(t.number, Rule::POSITIVE));
        let negative = is_marked(self.signs, signed_key(t.number, Rule::NEGATIVE));
        let deciding = positive & !negative;
        let applies = ((t.object == self.q.object) & current)
            & (deciding & !passed_over(self.scope, self.passed, t));
        let k = usize::from(t.processing);
        applies.then_some((k, lesser(t.number, byte_at(before, k))))
    }
}

fn types_named(b: &[u8], asked: &Named<'_>) -> [u8; PROCESSINGS]
    ensures { (λ k. get_or result k 0) ≡ types_named b.now asked.now.q (type_passed asked.now.scope (marked asked.now.passed.now)) (marked asked.now.signs.now) }
{
    table(asked, b, asked.q.csd)
}

// The marks of the types exempted, by the signs of which a rule matches.
#[derive(Clone, Copy)]
struct Exempted<'a> {
    q: Question,
    signs: &'a [u8],
}

impl<'a> Pass for Exempted<'a> {
    type Record = RestrictionType;

    ghost on = { λ s t. type_exempted s.q (marked s.signs.now) t };

    ghost key = { λ s t. t.number };

    // A current type, of which a negative rule matches.
    fn entry(&self, t: RestrictionType, _before: &[u8]) -> Option<(usize, u8)> {
        let in_force = covers(t.first, t.last, self.q.day);
        let exempts = is_marked(self.signs, signed_key(t.number, Rule::NEGATIVE));
        let exempted = (t.object == self.q.object) & in_force & exempts;
        exempted.then_some((usize::from(t.number), 1))
    }
}

fn types_exempted(b: &[u8], q: Question, signs: &[u8]) -> [u8; TYPE_NUMBERS]
    ensures { marked result ≡ types_exempted b.now q (marked signs.now) }
{
    table(&Exempted { q, signs }, b, q.csd)
}

// 5. The rules of a type that is named, looked through in rising sequence.

// The marks of a type's matching rules, by sequence and sign.
#[derive(Clone, Copy)]
struct TypeRules<'a> {
    q: Question,
    rows: &'a [u8],
    number: u8,
}

impl<'a> Pass for TypeRules<'a> {
    type Record = Rule;

    ghost on = { λ s r. rule_of_type s.q (marked s.rows.now) s.number r };

    ghost key = { λ s r. signed_key r };

    fn entry(&self, r: Rule, _before: &[u8]) -> Option<(usize, u8)> {
        let matches = (r.number == self.number) & rule_matches(self.q, self.rows, r);
        matches.then_some((signed_key(r.sequence, r.sign), 1))
    }
}

// The type's rule at a sequence that matches, if one does. A sound book has one rule there at most, so one mark.
fn judged_rule(rules: &[u8], sequence: u8) -> Option<ListedRule>
    ensures { result ≡ judged_rule (marked rules.now) sequence }
{
    if is_marked(rules, signed_key(sequence, Rule::POSITIVE)) {
        let sign = Rule::POSITIVE;
        return Some(ListedRule { sequence, sign });
    }
    if is_marked(rules, signed_key(sequence, Rule::NEGATIVE)) {
        let sign = Rule::NEGATIVE;
        return Some(ListedRule { sequence, sign });
    }
    None
}

// A list without a rule. It is of a fixed size: there is no heap.
fn none_listed() -> [Option<ListedRule>; SEQUENCES as usize]
    ensures { result ≡ none_listed }
{
    [None; SEQUENCES as usize]
}

// The rules of a type, each at the place of its sequence. No rule has sequence 0. The loop is over sequences, by which
// the marks are asked: over the list's places, `enumerate` would give a usize to be turned into the sequence's byte.
fn rules_listed(rules: &[u8]) -> [Option<ListedRule>; SEQUENCES as usize]
    ensures { Listed (marked rules.now) sequences result }
{
    let mut t = none_listed();
    for s in 1..SEQUENCES {
        t[usize::from(s)] = judged_rule(rules, s);
    }
    t
}

// The first positive rule of a type that matches, if one does; the meaning's `deciding` has 0 for none.
fn first_rule(rules: &[u8]) -> Option<u8>
    ensures { unwrap_or result 0 ≡ first_rule (marked rules.now) }
{
    first_positive(&rules_listed(rules))
}

// The type named for a processing, if one is: 0 in the table is no type.
fn named_for(named: &[u8], processing: u8) -> Option<u8>
    ensures { result ≡ cond (eqb (get_or named.now processing 0) 0) None (Some (get_or named.now processing 0)) }
{
    let number = byte_at(named, usize::from(processing));
    if number == 0 { None } else { Some(number) }
}

// What a question is judged by: the book's bytes, the question, and the marks of the rules that count and of which a
// row matches.
#[derive(Clone, Copy)]
struct Matched<'a> {
    book: &'a [u8],
    q: Question,
    rows: &'a [u8],
}

impl<'a> Matched<'a> {
    // The marks of the signs of which a rule of each type matches.
    fn signs(&self) -> [u8; TYPE_KEYS]
        ensures { marked result ≡ signs_matched self.now.book.now self.now.q (marked self.now.rows.now) }
    {
        let signs = Signs {
            q: self.q,
            rows: self.rows,
        };
        table(&signs, self.book, self.q.csd)
    }

    // The marks of a type's matching rules, by sequence and sign.
    fn rules_of(&self, number: u8) -> [u8; SIGN_KEYS]
        ensures { marked result ≡ rules_matched self.now.book.now self.now.q (marked self.now.rows.now) number }
    {
        let rules = TypeRules {
            q: self.q,
            rows: self.rows,
            number,
        };
        table(&rules, self.book, self.q.csd)
    }

    // The type named for a processing with its deciding rule, if a type is named.
    fn decided(&self, named: &[u8], processing: u8) -> Option<Deciding>
        ensures { result ≡ decided (rules_matched self.now.book.now self.now.q (marked self.now.rows.now)) (get_or named.now processing 0) }
    {
        let number = named_for(named, processing)?;
        let rules = self.rules_of(number);
        Some(Deciding {
            number,
            // 0 where no rule is found, as in the meaning's `deciding`.
            sequence: first_rule(&rules).unwrap_or(0),
        })
    }

    // Rejection comes first, and a rejected instruction shows no hold.
    fn verdict(&self, named: &[u8]) -> Verdict
        ensures { result ≡ verdict (rules_matched self.now.book.now self.now.q (marked self.now.rows.now)) (λ k. get_or named.now k 0) }
    {
        let rejection = self.decided(named, RestrictionType::REJECTION);
        if rejection.is_some() {
            return Verdict {
                rejection,
                validation: None,
                party: None,
            };
        }
        Verdict {
            rejection: None,
            validation: self.decided(named, RestrictionType::VALIDATION_HOLD),
            party: self.decided(named, RestrictionType::PARTY_HOLD),
        }
    }

    // The verdict by the signs of which a rule matches, where types are passed over: for `judge` and `judge_within`, of
    // which each makes the signs, since the second asks them for the types exempted too.
    fn found(&self, scope: Scope, passed: &[u8], signs: &[u8]) -> Verdict
        ensures { result ≡ verdict (rules_matched self.now.book.now self.now.q (marked self.now.rows.now)) (types_named self.now.book.now self.now.q (type_passed scope (marked passed.now)) (marked signs.now)) }
    {
        let asked = Named {
            q: self.q,
            scope,
            passed,
            signs,
        };
        let named = types_named(self.book, &asked);
        self.verdict(&named)
    }
}

// The verdict on a question, for any bytes; where the depository's records are sound, as in every sound book, it is the
// meaning's over its lone book.
pub fn judge(book: &[u8], q: Question) -> Verdict
    ensures by_bytes { result ≡ judged_by book.now q }
    ensures meant { sound_lone (lone_book q.csd book.now) ≡ true → result ≡ judged (lone_book q.csd book.now) (question_of q) }
{
    let mut rows: [u8; RULE_KEYS] = blank();
    mark_rules(&mut rows, book, q);
    let on = Matched {
        book,
        q,
        rows: &rows,
    };
    let signs = on.signs();
    on.found(Scope::whole(), &[], &signs)
}

// Marks the rules that count and of which a row matches, in a lent table, whatever stood there.
fn rules_within(t: &mut [u8], b: &[u8], q: Question, fresh: bool)
    requires { length t.old ≡ rule_keys }
    ensures { marked t.new ≡ rows_within b.now q fresh }
{
    if fresh {
        let mut rows: [u8; RULE_KEYS] = blank();
        mark_rules(&mut rows, b, q);
        mark_new_rules(t, b, q, &rows);
    } else {
        mark_rules(t, b, q);
    }
}

// What is found on a question by a scope, where the types marked in a lent table, by number, are passed over too. It is
// fixed for any bytes; where the depository's records are sound it is the meaning's over its lone book in which only
// what the scope has is left. Past the table's end no type is passed over.
pub fn judge_within(book: &[u8], q: Question, s: Scope, passed: &[u8]) -> Judgement
    ensures by_bytes { result.verdict ≡ judged_within book.now q s (marked passed.now) }
    ensures exempts_by_bytes { marked result.exempted ≡ exempted_within book.now q s }
    ensures meant { sound_lone (lone_book q.csd book.now) ≡ true → result.verdict ≡ judged (lone_within book.now q s (marked passed.now)) (question_of q) }
    ensures exempts_meant { sound_lone (lone_book q.csd book.now) ≡ true → marked result.exempted ≡ exempted (lone_counted book.now q s) (question_of q) }
{
    let mut rows: [u8; RULE_KEYS] = blank();
    rules_within(&mut rows, book, q, s.fresh);
    let on = Matched {
        book,
        q,
        rows: &rows,
    };
    let signs = on.signs();
    Judgement {
        verdict: on.found(s, passed, &signs),
        exempted: types_exempted(book, q, &signs),
    }
}
