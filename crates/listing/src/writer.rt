// Lines, put into a slice from a place on. The place stays a number beside the slice: measuring lends an empty one, and text's `Wrote` speaks of places.
ghost use Rattle.std.specs.Prelude.{◌≡◌, true, ◌+◌, ◌≤◌, ◌*◌, ◌/◌, ◌<◌, length};
ghost use Rattle.grammar.specs.Form.{size_ok};
ghost use Rattle.text.specs.Stored.{Wrote};
ghost use Rattle.listing.specs.Listing.{ending, numbers, line, record_lines, literals_line, head_lines, listing};

use crate::records::{NODES, RULES, Records};

// What ends a number that so many others follow in its line: "single spaces, each line ended by byte 10".
pub(crate) fn ending_of(others: usize) -> u8
    ensures { result ≡ ending others }
{
    if others == 0 {
        return 10;
    }
    32
}

fn put_numbers(text: &mut [u8], at: usize, words: &[u16]) -> usize
    ensures { Wrote text.old at (numbers words.now) result text.new }
{
    let mut next = at;
    for (i, &word) in words.iter().enumerate() {
        let end = text::put_decimal(text, next, u32::from(word));
        next = text::put(text, end, ending_of(words.len() - 1 - i));
    }
    next
}

fn put_line(text: &mut [u8], at: usize, key: &[u8], words: &[u16]) -> usize
    ensures { Wrote text.old at (line key.now words.now) result text.new }
{
    let next = text::put_bytes(text, at, key);
    put_numbers(text, next, words)
}

fn put_records(text: &mut [u8], at: usize, records: Records, words: &[u16]) -> usize
    requires { 0 < records.width }
    ensures { Wrote text.old at (record_lines records.key.now records.width (length words.now / records.width) words.now) result text.new }
{
    let mut next = at;
    for record in words.chunks_exact(records.width) {
        next = put_line(text, next, records.key, record);
    }
    next
}

fn put_literals(text: &mut [u8], at: usize, literals: &[u8]) -> usize
    ensures { Wrote text.old at (literals_line literals.now) result text.new }
{
    let a = text::put_bytes(text, at, b"literals=");
    let b = text::put_hex(text, a, literals);
    text::put(text, b, 10)
}

fn put_head(text: &mut [u8], at: usize, words: &[u16], literals: &[u8]) -> usize
    requires { 2 ≤ length words.now }
    ensures { Wrote text.old at (head_lines words.now literals.now) result text.new }
{
    let a = put_line(text, at, b"rules=", &words[0..1]);
    let b = put_line(text, a, b"nodes=", &words[1..2]);
    put_literals(text, b, literals)
}

// The listing of a table of right size.
pub(crate) fn put_listing(text: &mut [u8], at: usize, words: &[u16], literals: &[u8]) -> usize
    requires { size_ok words.now (length literals.now) ≡ true }
    ensures { Wrote text.old at (listing words.now literals.now) result text.new }
{
    let nodes = 3 + RULES.width * usize::from(words[0]);
    let rule_lines = put_head(text, at, words, literals);
    let node_lines = put_records(text, rule_lines, RULES, &words[3..nodes]);
    put_records(text, node_lines, NODES, &words[nodes..])
}
