// The tables of the KELER set, as document 01 gives them, and the lines that they make.
ghost use Rattle.std.specs.Prelude.{◌<◌, ◌≡◌, [], get_or};
ghost use Rattle.meaning.specs.Keler.{keler_lines};
ghost use Rattle.writing.specs.Written.{written_as};
ghost use Rattle.keler.specs.Lines.{type_line, rule_line, row_line};

use crate::KelerSet;
use shapes::Shape;
use writing::{Written, write_line};

// How many lines of each kind the set has.
const TYPES: usize = 10;

const RULES: usize = 13;

const ROWS: usize = 32;

// The tables are rows of numbers, and no structs or kinds by name: a row stands as document 01 prints it, to be
// compared with it line by line, and its numbers go to `write_line`, which takes numbers for every shape. The columns
// are named where a row is taken apart below.

// Type, object, processing.
static KELER_TYPES: [[u32; 3]; TYPES] = [
    [1, 1, 1],
    [1, 2, 1],
    [2, 1, 1],
    [2, 2, 1],
    [3, 1, 1],
    [3, 2, 1],
    [4, 1, 2],
    [4, 2, 1],
    [5, 1, 2],
    [5, 2, 1],
];

// The signs of a rule: positive, negative.
const P: u32 = 1;

const N: u32 = 2;

// Type, object, sequence, sign, criteria.
static KELER_RULES: [[u32; 5]; RULES] = [
    [1, 1, 1, P, 64],
    [1, 1, 2, N, 72],
    [1, 2, 1, P, 64],
    [2, 1, 1, P, 130],
    [2, 1, 2, P, 128],
    [2, 1, 3, N, 136],
    [2, 2, 1, P, 128],
    [3, 1, 1, P, 256],
    [3, 2, 1, P, 256],
    [4, 1, 1, P, 128],
    [4, 2, 1, P, 128],
    [5, 1, 1, P, 128],
    [5, 2, 1, P, 128],
];

// The movement DELI is the first word of its form; the transaction CORP is the number of its four letters, written out,
// as Rattle takes no call of `from_be_bytes` in a constant. 0 is an empty value.
const DELI: u32 = 1;

const CORP: u32 = 1129271888;

// Type, object, sequence; movement, transaction; the codes of party, account and security. The other five values are
// empty in every row.
static KELER_ROWS: [[u32; 8]; ROWS] = [
    [1, 1, 1, 0, 0, 101, 0, 0],
    [1, 1, 1, 0, 0, 102, 0, 0],
    [1, 1, 1, 0, 0, 103, 0, 0],
    [1, 1, 2, 0, CORP, 101, 0, 0],
    [1, 1, 2, 0, CORP, 102, 0, 0],
    [1, 2, 1, 0, 0, 101, 0, 0],
    [1, 2, 1, 0, 0, 102, 0, 0],
    [1, 2, 1, 0, 0, 103, 0, 0],
    [2, 1, 1, DELI, 0, 0, 201, 0],
    [2, 1, 2, 0, 0, 0, 202, 0],
    [2, 1, 2, 0, 0, 0, 203, 0],
    [2, 1, 2, 0, 0, 0, 204, 0],
    [2, 1, 2, 0, 0, 0, 205, 0],
    [2, 1, 3, 0, CORP, 0, 201, 0],
    [2, 1, 3, 0, CORP, 0, 202, 0],
    [2, 1, 3, 0, CORP, 0, 203, 0],
    [2, 1, 3, 0, CORP, 0, 204, 0],
    [2, 2, 1, 0, 0, 0, 201, 0],
    [2, 2, 1, 0, 0, 0, 202, 0],
    [2, 2, 1, 0, 0, 0, 203, 0],
    [2, 2, 1, 0, 0, 0, 204, 0],
    [2, 2, 1, 0, 0, 0, 205, 0],
    [3, 1, 1, 0, 0, 0, 0, 301],
    [3, 1, 1, 0, 0, 0, 0, 302],
    [3, 2, 1, 0, 0, 0, 0, 301],
    [3, 2, 1, 0, 0, 0, 0, 302],
    [4, 1, 1, 0, 0, 0, 402, 0],
    [4, 2, 1, 0, 0, 0, 402, 0],
    [5, 1, 1, 0, 0, 0, 403, 0],
    [5, 1, 1, 0, 0, 0, 404, 0],
    [5, 2, 1, 0, 0, 0, 403, 0],
    [5, 2, 1, 0, 0, 0, 404, 0],
];

// ---- the lines

// A function for each table, which names the table's columns and says where the dates stand among them. One for all
// three would be told both by its callers, and be no plainer.

fn type_line(n: usize, set: KelerSet) -> Written
    requires { n < 10 }
    ensures { result ≡ written_as (type_line n set.csd set.day set.first set.last) }
{
    let [number, object, processing] = KELER_TYPES[n];
    let numbers = [
        set.csd, set.day, number, object, processing, set.first, set.last,
    ];
    write_line(Shape::T, &numbers)
}

fn rule_line(n: usize, set: KelerSet) -> Written
    requires { n < 13 }
    ensures { result ≡ written_as (rule_line n set.csd set.day set.first set.last) }
{
    let [number, object, sequence, sign, criteria] = KELER_RULES[n];
    let numbers = [
        set.csd, set.day, number, object, sequence, sign, criteria, set.first, set.last,
    ];
    write_line(Shape::R, &numbers)
}

fn row_line(n: usize, set: KelerSet) -> Written
    requires { n < 32 }
    ensures { result ≡ written_as (row_line n set.csd set.day) }
{
    let [
        number,
        object,
        sequence,
        movement,
        transaction,
        party,
        account,
        security,
    ] = KELER_ROWS[n];
    let numbers = [
        set.csd,
        set.day,
        number,
        object,
        sequence,
        0,
        movement,
        0,
        transaction,
        0,
        0,
        party,
        account,
        security,
        0,
    ];
    write_line(Shape::M, &numbers)
}

// The line after n others: the T lines, the R lines, the M lines, and no bytes after these.
pub fn set_line(n: usize, set: KelerSet) -> Written
    ensures { result ≡ written_as (get_or (keler_lines set.csd set.day set.first set.last) n []) }
{
    if n < TYPES {
        return type_line(n, set);
    }
    let rule = n - TYPES;
    if rule < RULES {
        return rule_line(rule, set);
    }
    let row = rule - RULES;
    if row < ROWS {
        return row_line(row, set);
    }
    Written::new()
}
