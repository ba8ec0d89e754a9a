// What each word of a record is expected to be: its sort, as a number. (An enum in place of the numbers was proved and costs speed: the table check then takes 10 to 29 % more
// instructions, 23.5 to 27.9 a record word for 21.5, since a sort with its place is two bytes.)
ghost use Rattle.std.specs.Prelude.{◌≡◌, ◌<◌, get_or};
ghost use Rattle.form.specs.Sorts;
ghost use Rattle.form.specs.Scan;

use table::records::{inherited_count, returned_count, word_at};

// The sorts. A field that a kind doesn't use is 0, and so is its sort.
pub const UNUSED: u8 = 0;

pub const BYTE: u8 = 1;

pub const BIT: u8 = 2;

pub const ANY: u8 = 3;

pub const PARSING: u8 = 4;

pub const EXPRESSION: u8 = 5;

pub const RULE: u8 = 6;

pub const SLOT: u8 = 7;

pub const TEXT_START: u8 = 8;

pub const TEXT_LENGTH: u8 = 9;

pub const COUNT: u8 = 10;

// The sorts of places that may be past a count, four to a sort.
const ARGUMENT: u8 = 11;

const RECEIVING: u8 = 15;

const INHERITED_TYPE: u8 = 19;

const RETURNED: u8 = 23;

const RETURNED_TYPE: u8 = 27;

// What a place of types is within its count (an argument or returned node is then EXPRESSION, a receiving slot SLOT), and what word 0 of a node is.
pub const TYPE: u8 = 31;

pub const KIND: u8 = 32;

// "What each kind expects in its nine fields is one constant table over the kinds": a row a kind, from 0 on.
pub(crate) const FIELD_SORTS: [[u8; 9]; 29] = [
    [0, 0, 0, 0, 0, 0, 0, 0, 0], // 0 no such kind
    [0, 0, 0, 0, 0, 0, 0, 0, 0], // 1 empty
    [BYTE, 0, 0, 0, 0, 0, 0, 0, 0], // 2 terminal
    [PARSING, PARSING, 0, 0, 0, 0, 0, 0, 0], // 3 sequence
    [PARSING, PARSING, 0, 0, 0, 0, 0, 0, 0], // 4 choice
    [PARSING, 0, 0, 0, 0, 0, 0, 0, 0], // 5 repeat
    [PARSING, 0, 0, 0, 0, 0, 0, 0, 0], // 6 not
    [RULE, ARGUMENT, 12, 13, 14, RECEIVING, 16, 17, 18], // 7 call
    [SLOT, PARSING, 0, 0, 0, 0, 0, 0, 0], // 8 bind
    [SLOT, EXPRESSION, 0, 0, 0, 0, 0, 0, 0], // 9 update
    [EXPRESSION, 0, 0, 0, 0, 0, 0, 0, 0], // 10 constraint
    [0, 0, 0, 0, 0, 0, 0, 0, 0], // 11 no such kind
    [0, 0, 0, 0, 0, 0, 0, 0, 0], // 12 no such kind
    [0, 0, 0, 0, 0, 0, 0, 0, 0], // 13 no such kind
    [0, 0, 0, 0, 0, 0, 0, 0, 0], // 14 no such kind
    [0, 0, 0, 0, 0, 0, 0, 0, 0], // 15 no such kind
    [BIT, 0, 0, 0, 0, 0, 0, 0, 0], // 16 Bool
    [ANY, ANY, 0, 0, 0, 0, 0, 0, 0], // 17 Integer
    [TEXT_START, TEXT_LENGTH, 0, 0, 0, 0, 0, 0, 0], // 18 Text
    [SLOT, 0, 0, 0, 0, 0, 0, 0, 0], // 19 slot
    [EXPRESSION, EXPRESSION, 0, 0, 0, 0, 0, 0, 0], // 20 add
    [EXPRESSION, EXPRESSION, 0, 0, 0, 0, 0, 0, 0], // 21 subtract
    [EXPRESSION, EXPRESSION, 0, 0, 0, 0, 0, 0, 0], // 22 multiply
    [EXPRESSION, EXPRESSION, 0, 0, 0, 0, 0, 0, 0], // 23 divide
    [EXPRESSION, EXPRESSION, 0, 0, 0, 0, 0, 0, 0], // 24 equal
    [EXPRESSION, EXPRESSION, 0, 0, 0, 0, 0, 0, 0], // 25 greater
    [EXPRESSION, EXPRESSION, 0, 0, 0, 0, 0, 0, 0], // 26 and
    [EXPRESSION, EXPRESSION, 0, 0, 0, 0, 0, 0, 0], // 27 or
    [EXPRESSION, 0, 0, 0, 0, 0, 0, 0, 0], // 28 not
];

// "Rule record: body node; n inherited (0 to 4); four types; m returned (0 to 4); four returned nodes; four returned types."
const RULE_SORTS: [u8; 15] = [
    PARSING, // body
    COUNT, // n
    INHERITED_TYPE,
    INHERITED_TYPE + 1,
    INHERITED_TYPE + 2,
    INHERITED_TYPE + 3,
    COUNT, // m
    RETURNED,
    RETURNED + 1,
    RETURNED + 2,
    RETURNED + 3,
    RETURNED_TYPE,
    RETURNED_TYPE + 1,
    RETURNED_TYPE + 2,
    RETURNED_TYPE + 3,
];

// The row of a kind. A number that is no kind's has the row of 0, in which no field is used; it is refused at its own word.
pub(crate) fn row_of(kind: u16) -> u16
    ensures { result ≡ Sorts.row_of kind }
{
    if kind < 29 { kind } else { 0 }
}

// The sort of word j of a rule.
fn rule_record_sort(j: u16) -> u8
    requires { j < 15 }
    ensures { result ≡ get_or Sorts.rule_numbers j 0 }
{
    RULE_SORTS[usize::from(j)]
}

// The sort of word j of a node, from its row.
fn node_record_sort(rows: &[[u8; 9]; 29], row: u16, j: u16) -> u8
    requires { (row < 29) × (j < 10) }
    ensures { result ≡ Sorts.in_row rows.now row j }
{
    if j == 0 {
        return KIND;
    }
    rows[usize::from(row)][usize::from(j) - 1]
}

// The sort of word j of record q, rules first and then nodes. `row` is its row if it is a node, and is not looked at for a rule.
pub(crate) fn record_sort(rows: &[[u8; 9]; 29], rules: u16, q: u16, row: u16, j: u16) -> u8
    requires { (row < 29) × (j < Scan.record_length rules q) }
    ensures { result ≡ Scan.record_sort rows.now rules q row j }
{
    if q < rules {
        rule_record_sort(j)
    } else {
        node_record_sort(rows, row, j)
    }
}

// "Places past n or m hold 0": the sort of place i of four, of which `count` are in use.
fn within(i: u8, count: u16, sort: u8) -> u8
    ensures { result ≡ Sorts.placed i count sort }
{
    if u16::from(i) < count { sort } else { UNUSED }
}

// The sort in force, in the record that starts at word `start`. A call's "counts are the callee's n and m".
pub(crate) fn in_force(words: &[u16], start: usize, sort: u8) -> u8
    requires { start < 4294967296 }
    ensures { result ≡ Sorts.force words.now start sort }
{
    if sort < ARGUMENT {
        return sort;
    }
    if sort == KIND {
        return sort;
    }
    let a = word_at(words, start + 1);
    if sort < RECEIVING {
        return within(sort - ARGUMENT, inherited_count(words, a), EXPRESSION);
    }
    if sort < INHERITED_TYPE {
        return within(sort - RECEIVING, returned_count(words, a), SLOT);
    }
    if sort < RETURNED {
        return within(sort - INHERITED_TYPE, a, TYPE);
    }
    let m = word_at(words, start + 6);
    if sort < RETURNED_TYPE {
        return within(sort - RETURNED, m, EXPRESSION);
    }
    within(sort - RETURNED_TYPE, m, TYPE)
}
