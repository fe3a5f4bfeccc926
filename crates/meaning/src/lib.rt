// The types that the written meaning answers with. The meaning itself is in specs/, what is proved of it in proofs/.
#![tactic(auto)]

ghost use Rattle.std.specs.Prelude.{◌≡◌};
ghost use Rattle.meaning.specs.Refusals.{number_of};

// Why a line or a batch is refused: the paper's list, each with its number (document 01, 'Refused lines'; 11 and 12
// by request a of document 02, 13 by its request c).
#[derive(Clone, Copy, Debug, PartialEq, Eq)]
pub enum Refusal {
    // the book isn't sound
    UnsoundBook = 1,
    // the line has 0 bytes or over 80, or a byte not allowed
    BadLine = 2,
    // the first field isn't a letter of the table
    NoLetter = 3,
    // the number of fields differs
    FieldCount = 4,
    // a field is outside its form or range, or wrongly empty or filled
    BadField = 5,
    // T's, R's or A's first day is not later than the line's day, or E's or Z's new last day is before it
    TooEarly = 6,
    // the named record does not exist
    NotFound = 7,
    // that key is held already, or A's period shares a day with another of its attribute
    AlreadyHeld = 8,
    // the new last day is before the record's first or after its present last, the rule still has rows, or the row
    // fills other criteria than its rule's
    Conflict = 9,
    // the depository's quota is full
    QuotaFull = 10,
    // the batch has over 64 lines, or its answer space is under 32 bytes a line
    BatchTooLarge = 11,
    // the line names another depository than its batch
    OtherDepository = 12,
    // R's period leaves the type's period
    LeavesType = 13,
}

impl From<Refusal> for u8 {
    ghost from_gives = { λ refusal number. number ≡ number_of refusal };

    fn from(refusal: Refusal) -> u8 {
        refusal as u8
    }
}

// A restriction type and the sequence of its rule that decides.
#[derive(Clone, Copy, Debug, PartialEq, Eq)]
pub struct Deciding {
    pub number: u8,
    pub sequence: u8,
}

// What a question is answered: what decides rejection, validation hold and party hold, if anything does. It is rejected
// if there is a rejection.
#[derive(Clone, Copy, Debug, PartialEq, Eq)]
pub struct Verdict {
    pub rejection: Option<Deciding>,
    pub validation: Option<Deciding>,
    pub party: Option<Deciding>,
}

// The two more fields that a question may carry (document 02, request b), called wishes here: the sender's hold
// indicator and the account's hold default. Y is true, N is false, and what is empty or not carried is none.
#[derive(Clone, Copy, Debug, PartialEq, Eq)]
pub struct Wishes {
    pub indicator: Option<bool>,
    pub default: Option<bool>,
}

// What a line is answered: K for an accepted edit, F with the refusal, V with the verdict, or V with the
// verdict and the status, whether the instruction is on party hold.
#[derive(Clone, Copy, Debug, PartialEq, Eq)]
pub enum Answer {
    Taken,
    Refused(Refusal),
    Judged(Verdict),
    WithStatus(Verdict, bool),
}

// How a line was sent: alone, or in a batch of a depository. No Option: its variants say how the line was sent, where
// Some and None would say only whether a depository is named.
#[derive(Clone, Copy, Debug, PartialEq, Eq)]
pub enum Sent {
    Alone,
    InBatch(u8),
}
