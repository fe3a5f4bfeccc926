// Places of a table in chains, for any table: what a pass over the places leaves, without an entry. What chains are and
// their laws: specs/Chains.antt, proofs/.
#![tactic(auto)]

ghost use Rattle.chains.specs.Chains.{NoneSeen};

// Whose a place can be: the depositories 1 to 8, and 0 of a free place.
pub const OWNERS: usize = 9;

// How many chains a table has: one to a bucket.
pub const BUCKETS: usize = 2048;

// The most places that a table has.
pub const MOST_PLACES: usize = 1024;

// How many places are seen at once to be free.
pub const BLOCK: u16 = 32;

// What a pass over a table knows of the places before: how many each depository has, and the used ones in chains. A
// chain names a place by its number plus 1, and 0 is its end: an Option would double the bytes that are cleared for
// every table, and to clear them is 13 % of the instructions of a line on the almost empty book (callgrind on
// precheck_main), so that a line would cost about 1.13 times, where the bar is 1.02. The arrays are of a fixed size,
// since the project's memory is fixed.
#[derive(Drop)]
pub struct Seen {
    pub counts: [u16; OWNERS],
    pub head: [u16; BUCKETS],
    pub next: [u16; MOST_PLACES],
}

impl Seen {
    // Before the first place. No other function makes the arrays, so that no other proof shows their cells.
    pub fn none() -> Seen
        ensures { NoneSeen result }
    {
        Seen {
            counts: [0; OWNERS],
            head: [0; BUCKETS],
            next: [0; MOST_PLACES],
        }
    }
}
