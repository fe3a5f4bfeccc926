// The records of the book by value, and their reading at a place.
// Written by tools/places.py: change that, then run tools/generate.
#![tactic(auto)]

ghost use Rattle.std.specs.Prelude.{◌≡◌, ℕ, ◌+◌, ◌*◌, List, [], ◌∷◌, refl};
ghost use Rattle.tables.specs.Bytes.{byte_at, Width, one, two, three, four, number, numbers};
ghost use Rattle.places.specs.Layout.{type_base, type_width, type_places, type_quota, type_widths, type_from, type_at, rule_base, rule_width, rule_places, rule_quota, rule_widths, rule_from, rule_at, row_base, row_width, row_places, row_quota, row_widths, row_from, row_at, period_base, period_width, period_places, period_quota, period_widths, period_from, period_at, instruction_base, instruction_width, instruction_places, instruction_quota, instruction_widths, instruction_from, instruction_at, zero_row, zero_instruction};
ghost use Rattle.places.specs.Reads.{type_reads, rule_reads, row_reads, period_reads, instruction_reads};

use basics::byte_at;

// The book's exact size in bytes (docs/LAYOUT.md).
pub const SIZE: usize = 51200;

// The record at a place of one of the book's tables: numbers of these widths, one after the other, of which the first
// says whose it is.
pub trait Place: Copy {
    // The address of the first place, and the bytes of each.
    ghost START: { ℕ };

    ghost WIDTH: { ℕ };

    // How many places there are, and how many records a depository may hold.
    ghost PLACES: { ℕ };

    ghost QUOTA: { ℕ };

    // The record of these numbers, the one at place i of a book, and whose it is.
    ghost widths: { List Width };

    ghost from: { List ℕ → Self };

    ghost at: { List ℕ → ℕ → Self };

    ghost csd: { Self → ℕ };

    const START: u16;

    const WIDTH: u8;

    const PLACES: u16;

    const QUOTA: u16;

    // The record whose numbers start at an address.
    fn read(b: &[u8], start: u32) -> Self
        ensures { result ≡ from (numbers widths b.now start 0) };

    ghost reads: { (b : List ℕ) (i : ℕ) → at b i ≡ from (numbers widths b (START + i * WIDTH) 0) };

    ghost first: { (b : List ℕ) (a : ℕ) → csd (from (numbers widths b a 0)) ≡ number one b a 0 };
}

// The address of place i of a table that starts at an address and has places of a width.
#[inline(always)]
pub fn address_of(start: u16, width: u8, i: u16) -> u32
    ensures { result ≡ start + i * width }
{
    u32::from(start) + u32::from(i) * u32::from(width)
}

// The address of place i of a table of the book.
pub fn address<P: Place>(i: u16) -> u32
    ensures { result ≡ P.START + i * P.WIDTH }
{
    address_of(P::START, P::WIDTH, i)
}

// The record at place i. It is put into its callers' loops, as what it calls: as a call it reads every field, where a
// loop asks one or two.
#[inline(always)]
pub fn record_at<P: Place>(b: &[u8], i: u16) -> P
    ensures { result ≡ P.at b.now i }
{
    P::read(b, address::<P>(i))
}

// Whose place i is, 0 where it is free.
#[inline(always)]
pub fn csd_at<P: Place>(b: &[u8], i: u16) -> u8
    ensures { result ≡ P.csd (P.at b.now i) }
{
    let place = Bytes {
        book: b,
        start: address::<P>(i),
    };
    place.byte(0)
}

// The bytes of a place: those of a book from an address on, 0 past its end. An index is had by `as`, since no `From`
// makes a usize of a u32.
#[derive(Clone, Copy)]
struct Bytes<'a> {
    book: &'a [u8],
    start: u32,
}

// Numbers of one to four bytes at an offset, lowest byte first. A method for each width, as `number` has a clause for
// each, and as `from_le_bytes` has a type for each. Where all its bytes lie within the book, a number of several is
// read by one test; else byte by byte.
impl<'a> Bytes<'a> {
    #[inline(always)]
    fn byte(self, j: u32) -> u8
        ensures { result ≡ byte_at self.entry.book.now (self.entry.start + j) }
    {
        byte_at(self.book, self.start as usize + j as usize)
    }

    #[inline(always)]
    fn one(self, j: u16) -> u32
        ensures { result ≡ number one self.entry.book.now self.entry.start j }
    {
        u32::from(self.byte(u32::from(j)))
    }

    #[inline(always)]
    fn two(self, j: u16) -> u32
        ensures { result ≡ number two self.entry.book.now self.entry.start j }
    {
        let b = self.book;
        let i = self.start as usize + usize::from(j);
        if i + 1 < b.len() {
            return two(b[i], b[i + 1]);
        }
        let k = u32::from(j);
        two(self.byte(k), self.byte(k + 1))
    }

    #[inline(always)]
    fn three(self, j: u16) -> u32
        ensures { result ≡ number three self.entry.book.now self.entry.start j }
    {
        let b = self.book;
        let i = self.start as usize + usize::from(j);
        if i + 2 < b.len() {
            return three(b[i], b[i + 1], b[i + 2]);
        }
        let k = u32::from(j);
        three(self.byte(k), self.byte(k + 1), self.byte(k + 2))
    }

    #[inline(always)]
    fn four(self, j: u16) -> u32
        ensures { result ≡ number four self.entry.book.now self.entry.start j }
    {
        let b = self.book;
        let i = self.start as usize + usize::from(j);
        if i + 3 < b.len() {
            return four(b[i], b[i + 1], b[i + 2], b[i + 3]);
        }
        let k = u32::from(j);
        let x0 = self.byte(k);
        let x1 = self.byte(k + 1);
        let x2 = self.byte(k + 2);
        let x3 = self.byte(k + 3);
        four(x0, x1, x2, x3)
    }
}

fn two(x0: u8, x1: u8) -> u32
    ensures { result ≡ x0 + 256 * x1 }
{
    u32::from(u16::from_le_bytes([x0, x1]))
}

fn three(x0: u8, x1: u8, x2: u8) -> u32
    ensures { result ≡ x0 + 256 * x1 + 65536 * x2 }
{
    four(x0, x1, x2, 0)
}

fn four(x0: u8, x1: u8, x2: u8, x3: u8) -> u32
    ensures { result ≡ x0 + 256 * x1 + 65536 * x2 + 16777216 * x3 }
{
    u32::from_le_bytes([x0, x1, x2, x3])
}

// A restriction type of a depository: what becomes of an object that its rules match.
#[derive(Clone, Copy, Default, PartialEq, Eq, Debug)]
pub struct RestrictionType {
    pub csd: u8,
    pub number: u8,
    pub object: u8,
    pub processing: u8,
    pub first: u32,
    pub last: u32,
}

impl RestrictionType {
    // Objects, then processings. Numbers and no enum: a place of any lent bytes is read, so any number may stand there.
    pub const INSTRUCTION: u8 = 1;

    pub const RESTRICTION: u8 = 2;

    pub const REJECTION: u8 = 1;

    pub const VALIDATION_HOLD: u8 = 2;

    pub const PARTY_HOLD: u8 = 3;

    // Each record has a `new` of its own, since their fields differ.
    pub fn new(
        csd: u8,
        number: u8,
        object: u8,
        processing: u8,
        first: u32,
        last: u32,
    ) -> RestrictionType
        ensures { result ≡ record { csd = csd; number = number; object = object; processing = processing; first = first; last = last } }
    {
        RestrictionType {
            csd,
            number,
            object,
            processing,
            first,
            last,
        }
    }
}

impl Place for RestrictionType {
    ghost START = { type_base };

    ghost WIDTH = { type_width };

    ghost PLACES = { type_places };

    ghost QUOTA = { type_quota };

    ghost widths = { type_widths };

    ghost from = { type_from };

    ghost at = { type_at };

    ghost csd = { λ r. r.csd };

    ghost reads = { type_reads };

    ghost first = { λ b a. refl };

    const START: u16 = 0;

    const WIDTH: u8 = 12;

    const PLACES: u16 = 128;

    const QUOTA: u16 = 16;

    #[inline(always)]
    fn read(b: &[u8], start: u32) -> RestrictionType {
        let place = Bytes { book: b, start };
        RestrictionType {
            csd: place.byte(0),
            number: place.byte(1),
            object: place.byte(2),
            processing: place.byte(3),
            first: place.four(4),
            last: place.four(8),
        }
    }
}

// A rule of a type, with the criteria that its rows fill.
#[derive(Clone, Copy, Default, PartialEq, Eq, Debug)]
pub struct Rule {
    pub csd: u8,
    pub number: u8,
    pub object: u8,
    pub sequence: u8,
    pub sign: u8,
    pub criteria: u32,
    pub first: u32,
    pub last: u32,
}

impl Rule {
    // Signs. Numbers and no enum: a place of any lent bytes is read, so any number may stand there.
    pub const POSITIVE: u8 = 1;

    pub const NEGATIVE: u8 = 2;

    // Each record has a `new` of its own, since their fields differ.
    pub fn new(
        csd: u8,
        number: u8,
        object: u8,
        sequence: u8,
        sign: u8,
        criteria: u32,
        first: u32,
        last: u32,
    ) -> Rule
        ensures { result ≡ record { csd = csd; number = number; object = object; sequence = sequence; sign = sign; criteria = criteria; first = first; last = last } }
    {
        Rule {
            csd,
            number,
            object,
            sequence,
            sign,
            criteria,
            first,
            last,
        }
    }
}

impl Place for Rule {
    ghost START = { rule_base };

    ghost WIDTH = { rule_width };

    ghost PLACES = { rule_places };

    ghost QUOTA = { rule_quota };

    ghost widths = { rule_widths };

    ghost from = { rule_from };

    ghost at = { rule_at };

    ghost csd = { λ r. r.csd };

    ghost reads = { rule_reads };

    ghost first = { λ b a. refl };

    const START: u16 = 1536;

    const WIDTH: u8 = 15;

    const PLACES: u16 = 512;

    const QUOTA: u16 = 64;

    #[inline(always)]
    fn read(b: &[u8], start: u32) -> Rule {
        let place = Bytes { book: b, start };
        Rule {
            csd: place.byte(0),
            number: place.byte(1),
            object: place.byte(2),
            sequence: place.byte(3),
            sign: place.byte(4),
            criteria: place.two(5),
            first: place.four(7),
            last: place.four(11),
        }
    }
}

// A row of a rule: its ten values, 0 where empty. They are no Options: any lent bytes are read, and a value is compared
// as it lies.
#[derive(Clone, Copy, PartialEq, Eq, Debug)]
pub struct Row {
    pub csd: u8,
    pub number: u8,
    pub object: u8,
    pub sequence: u8,
    pub values: [u32; 10],
}

impl Row {
    // Each record has a `new` of its own, since their fields differ.
    pub fn new(csd: u8, number: u8, object: u8, sequence: u8, values: [u32; 10]) -> Row
        ensures { result ≡ record { csd = csd; number = number; object = object; sequence = sequence; values = values } }
    {
        Row {
            csd,
            number,
            object,
            sequence,
            values,
        }
    }
}

// What stands at a free place. Not derived: a derive's contract speaks of each element, and callers need the array.
impl Default for Row {
    ghost is_default = { λ r. r ≡ zero_row };

    fn default() -> Row {
        Row {
            csd: 0,
            number: 0,
            object: 0,
            sequence: 0,
            values: [0; 10],
        }
    }
}

impl Place for Row {
    ghost START = { row_base };

    ghost WIDTH = { row_width };

    ghost PLACES = { row_places };

    ghost QUOTA = { row_quota };

    ghost widths = { row_widths };

    ghost from = { row_from };

    ghost at = { row_at };

    ghost csd = { λ r. r.csd };

    ghost reads = { row_reads };

    ghost first = { λ b a. refl };

    const START: u16 = 9216;

    const WIDTH: u8 = 26;

    const PLACES: u16 = 1024;

    const QUOTA: u16 = 128;

    #[inline(always)]
    fn read(b: &[u8], start: u32) -> Row {
        let place = Bytes { book: b, start };
        Row {
            csd: place.byte(0),
            number: place.byte(1),
            object: place.byte(2),
            sequence: place.byte(3),
            values: [
                place.one(4),
                place.one(5),
                place.one(6),
                place.four(7),
                place.three(11),
                place.three(14),
                place.two(17),
                place.two(19),
                place.two(21),
                place.three(23),
            ],
        }
    }
}

// An attribute period: the days on which a party, an account or a security has a code.
#[derive(Clone, Copy, Default, PartialEq, Eq, Debug)]
pub struct Period {
    pub csd: u8,
    pub kind: u8,
    pub number: u32,
    pub code: u32,
    pub first: u32,
    pub last: u32,
}

impl Period {
    // Kinds. Numbers and no enum: a place of any lent bytes is read, so any number may stand there.
    pub const PARTY: u8 = 1;

    pub const ACCOUNT: u8 = 2;

    pub const SECURITY: u8 = 3;

    // Each record has a `new` of its own, since their fields differ.
    pub fn new(csd: u8, kind: u8, number: u32, code: u32, first: u32, last: u32) -> Period
        ensures { result ≡ record { csd = csd; kind = kind; number = number; code = code; first = first; last = last } }
    {
        Period {
            csd,
            kind,
            number,
            code,
            first,
            last,
        }
    }
}

impl Place for Period {
    ghost START = { period_base };

    ghost WIDTH = { period_width };

    ghost PLACES = { period_places };

    ghost QUOTA = { period_quota };

    ghost widths = { period_widths };

    ghost from = { period_from };

    ghost at = { period_at };

    ghost csd = { λ r. r.csd };

    ghost reads = { period_reads };

    ghost first = { λ b a. refl };

    const START: u16 = 35840;

    const WIDTH: u8 = 15;

    const PLACES: u16 = 1024;

    const QUOTA: u16 = 128;

    #[inline(always)]
    fn read(b: &[u8], start: u32) -> Period {
        let place = Bytes { book: b, start };
        Period {
            csd: place.byte(0),
            kind: place.byte(1),
            number: place.three(2),
            code: place.two(5),
            first: place.four(7),
            last: place.four(11),
        }
    }
}

// A pending instruction that is kept: the days since which its holds are on, 0 where off, and the types remembered. The
// days are no Options: they are stored as they lie, and the written meaning has 0 for a hold that is off.
#[derive(Clone, Copy, PartialEq, Eq, Debug)]
pub struct Kept {
    pub csd: u8,
    pub reference: u32,
    pub object: u8,
    pub role: u32,
    pub movement: u32,
    pub payment: u32,
    pub transaction: u32,
    pub currency: u32,
    pub party: u32,
    pub account: u32,
    pub security: u32,
    pub validating: u32,
    pub holding: u32,
    pub remembered: [u8; 13],
}

impl Kept {
    // Each record has a `new` of its own, since their fields differ. No other function makes a record by this one: it
    // stays, since document 01 names constructors without self, one for each record.
    pub fn new(
        csd: u8,
        reference: u32,
        object: u8,
        role: u32,
        movement: u32,
        payment: u32,
        transaction: u32,
        currency: u32,
        party: u32,
        account: u32,
        security: u32,
        validating: u32,
        holding: u32,
        remembered: [u8; 13],
    ) -> Kept
        ensures { result ≡ record { csd = csd; reference = reference; object = object; role = role; movement = movement; payment = payment; transaction = transaction; currency = currency; party = party; account = account; security = security; validating = validating; holding = holding; remembered = remembered } }
    {
        Kept {
            csd,
            reference,
            object,
            role,
            movement,
            payment,
            transaction,
            currency,
            party,
            account,
            security,
            validating,
            holding,
            remembered,
        }
    }
}

// What stands at a free place. Not derived: a derive's contract speaks of each element, and callers need the array.
impl Default for Kept {
    ghost is_default = { λ r. r ≡ zero_instruction };

    fn default() -> Kept {
        Kept {
            csd: 0,
            reference: 0,
            object: 0,
            role: 0,
            movement: 0,
            payment: 0,
            transaction: 0,
            currency: 0,
            party: 0,
            account: 0,
            security: 0,
            validating: 0,
            holding: 0,
            remembered: [0; 13],
        }
    }
}

// The 13 bytes of remembered.
fn remembered_at(place: Bytes<'_>) -> [u8; 13]
    ensures { result ≡ number one place.entry.book.now place.entry.start 31 ∷ number one place.entry.book.now place.entry.start 32 ∷ number one place.entry.book.now place.entry.start 33 ∷ number one place.entry.book.now place.entry.start 34 ∷ number one place.entry.book.now place.entry.start 35 ∷ number one place.entry.book.now place.entry.start 36 ∷ number one place.entry.book.now place.entry.start 37 ∷ number one place.entry.book.now place.entry.start 38 ∷ number one place.entry.book.now place.entry.start 39 ∷ number one place.entry.book.now place.entry.start 40 ∷ number one place.entry.book.now place.entry.start 41 ∷ number one place.entry.book.now place.entry.start 42 ∷ number one place.entry.book.now place.entry.start 43 ∷ [] }
{
    [
        place.byte(31),
        place.byte(32),
        place.byte(33),
        place.byte(34),
        place.byte(35),
        place.byte(36),
        place.byte(37),
        place.byte(38),
        place.byte(39),
        place.byte(40),
        place.byte(41),
        place.byte(42),
        place.byte(43),
    ]
}

impl Place for Kept {
    ghost START = { instruction_base };

    ghost WIDTH = { instruction_width };

    ghost PLACES = { instruction_places };

    ghost QUOTA = { instruction_quota };

    ghost widths = { instruction_widths };

    ghost from = { instruction_from };

    ghost at = { instruction_at };

    ghost csd = { λ r. r.csd };

    ghost reads = { instruction_reads };

    ghost first = { λ b a. refl };

    const START: u16 = 51200;

    const WIDTH: u8 = 44;

    const PLACES: u16 = 256;

    const QUOTA: u16 = 32;

    #[inline(always)]
    fn read(b: &[u8], start: u32) -> Kept {
        let place = Bytes { book: b, start };
        Kept {
            csd: place.byte(0),
            reference: place.two(1),
            object: place.byte(3),
            role: place.one(4),
            movement: place.one(5),
            payment: place.one(6),
            transaction: place.four(7),
            currency: place.three(11),
            party: place.three(14),
            account: place.three(17),
            security: place.three(20),
            validating: place.four(23),
            holding: place.four(27),
            remembered: remembered_at(place),
        }
    }
}
