// One pass over a depository's places of a table of records, which leaves a table of numbers addressed by key.
#![tactic(auto)]

ghost use Rattle.std.specs.Prelude.{◌≡◌, ℕ, Bool, get_or, length};
ghost use Rattle.std.specs.Bool.{then_some};
ghost use Rattle.tables.specs.Keyed.{Keyed};

use marks::{blank, store};
use owners::places_of;
use places::{Place, record_at};

// What a pass makes of each record: the value says what the records are asked.
pub trait Pass {
    type Record: Place;

    // Whether a record has an entry, at which key, and the entry by what stood there: a mark, unless a pass says else.
    ghost on: { Self → Self.Record → Bool };

    ghost key: { Self → Self.Record → ℕ };

    ghost entry: { Self → Self.Record → ℕ → ℕ } = { λ s r m. 1 };

    // The key and the entry of a record, by the table as it stands, if the record has one.
    fn entry(&self, r: Self::Record, t: &[u8]) -> Option<(usize, u8)>
        ensures { result ≡ then_some (on self.now r) (key self.now r, entry self.now r (get_or t.now (key self.now r) 0)) };
}

// Leaves in a lent table, whatever stood there, the entries of depository a's records. Each pass is called in a
// function that states its table's size, by the definition of its stage. Large tables are lent: to answer those of a
// question by value took 1.08 times the instructions of a submit in an almost empty book.
pub fn run<S: Pass>(asked: &S, t: &mut [u8], b: &[u8], a: u8)
    ensures { Keyed (length t.old) S.Record.csd a (S.Record.at b.now) (S.key asked.now) (S.on asked.now) (S.entry asked.now) t.new S.Record.PLACES }
{
    t.fill(0);
    for i in places_of::<S::Record>(b, a) {
        if let Some((k, v)) = asked.entry(record_at::<S::Record>(b, i), t) {
            store(t, k, v);
        }
    }
}

// The table of the entries of depository a's records, if it is small.
pub fn table<S: Pass, const N: usize>(asked: &S, b: &[u8], a: u8) -> [u8; N]
    ensures { Keyed N S.Record.csd a (S.Record.at b.now) (S.key asked.now) (S.on asked.now) (S.entry asked.now) result S.Record.PLACES }
{
    let mut t: [u8; N] = blank();
    run(asked, &mut t, b, a);
    t
}
