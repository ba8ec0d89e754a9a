// Lines, taken off a text from a place on. Words are stored from a place on too, and no place becomes a part of its slice: judging lends an empty slice, which
// has no part from a place on, and each contract here is text's `Took`, which speaks of places.
ghost use Rattle.std.specs.Prelude.{◌≡◌, [], ◌∷◌, ◌+◌, ◌≤◌, ◌*◌};
ghost use Rattle.text.specs.Stored.{Took, also, largest_place};
ghost use Rattle.listing.specs.Reading.{numbers_at, line_at, lines_at, count_at, literals_at, head_at, body_at};

use crate::records::{NODES, RULES, Records};
use crate::writer::ending_of;
use table::sizes::in_range;

// What the first three lines say: R, K, the number of literals, and the place after them.
#[derive(Clone, Copy)]
pub struct Head {
    pub rules: u32,
    pub nodes: u32,
    pub literals: usize,
    pub next: usize,
}

fn read_numbers(
    text: &[u8],
    at: usize,
    words: &mut [u16],
    from: usize,
    count: usize,
) -> Option<usize>
    requires { from + count ≤ largest_place }
    ensures { Took (numbers_at text.now count at) words.old from result words.new }
{
    let mut p = at;
    for i in 0..count {
        let (n, q) = text::read_number(text, p, ending_of(count - 1 - i), 65535)?;
        text::put(words, from + i, n as u16);
        p = q;
    }
    Some(p)
}

fn read_line(
    text: &[u8],
    at: usize,
    records: Records,
    words: &mut [u16],
    from: usize,
) -> Option<usize>
    requires { from + records.width ≤ largest_place }
    ensures { Took (line_at text.now records.key.now records.width at) words.old from result words.new }
{
    let p = text::after_key(text, at, records.key)?;
    read_numbers(text, p, words, from, records.width)
}

// So many lines, the first of them with the number `number`: the place after them, or the number of the first that is wrong.
fn read_lines(
    text: &[u8],
    at: usize,
    records: Records,
    count: u32,
    number: u32,
    words: &mut [u16],
    from: usize,
) -> Result<usize, u32>
    requires { (from + count * records.width ≤ largest_place) × (number + count ≤ 4294967295) }
    ensures { Took (lines_at text.now records.key.now records.width count number at) words.old from result words.new }
{
    let mut p = at;
    for i in 0..count {
        let next = from + i as usize * records.width;
        p = read_line(text, p, records, words, next).ok_or(number + i)?;
    }
    Ok(p)
}

// A line of the head: "Head values keep SIZE's ranges, else LINE".
fn read_count(text: &[u8], at: usize, key: &[u8], low: usize, high: usize) -> Option<(u32, usize)>
    ensures { result ≡ count_at text.now key.now low high at }
{
    let p = text::after_key(text, at, key)?;
    let (n, q) = text::read_number(text, p, 10, 65535)?;
    if !in_range(low, high, n as usize) {
        return None;
    }
    Some((n, q))
}

fn read_literals(text: &[u8], at: usize, literals: &mut [u8]) -> Option<(usize, usize)>
    ensures { Took (literals_at text.now at) literals.old 0 result literals.new }
{
    let p = text::after_key(text, at, b"literals=")?;
    let (n, q) = text::read_hex(text, p, literals)?;
    if !in_range(0, 4096, n) {
        return None;
    }
    Some((n, q))
}

// The first three lines, or the number of the first that is wrong: stores the literals.
pub(crate) fn read_head(
    text: &[u8],
    at: usize,
    first: u32,
    literals: &mut [u8],
) -> Result<Head, u32>
    requires { first ≤ 65535 }
    ensures { Took (head_at text.now first at) literals.old 0 result literals.new }
{
    let (rules, a) = read_count(text, at, b"rules=", 1, 64).ok_or(first)?;
    let (nodes, b) = read_count(text, a, b"nodes=", 1, 1024).ok_or(first + 1)?;
    let (bytes, next) = read_literals(text, b, literals).ok_or(first + 2)?;
    Ok(Head {
        rules,
        nodes,
        literals: bytes,
        next,
    })
}

// The other lines, up to the text's end, the first of them with the number `number`: stores their words.
pub(crate) fn read_body(
    text: &[u8],
    head: Head,
    number: u32,
    words: &mut [u16],
    from: usize,
) -> Result<usize, u32>
    requires { (head.rules ≤ 64) × ((head.nodes ≤ 1024) × ((number ≤ 65538) × (from ≤ 3))) }
    ensures { Took (body_at text.now head.rules head.nodes number head.next) words.old from result words.new }
{
    let Head { rules, nodes, .. } = head;
    let p = read_lines(text, head.next, RULES, rules, number, words, from)?;
    let next = from + RULES.width * rules as usize;
    let q = read_lines(text, p, NODES, nodes, number + rules, words, next)?;
    if q != text.len() {
        return Err(number + rules + nodes);
    }
    Ok(q)
}

// Stores the words of a table whose text is right.
pub(crate) fn fill_words(
    text: &[u8],
    head: Head,
    number: u32,
    words: &mut [u16],
) -> Result<usize, u32>
    requires { (head.rules ≤ 64) × ((head.nodes ≤ 1024) × ((head.literals ≤ 4096) × (number ≤ 65538))) }
    ensures { Took (also (head.rules ∷ head.nodes ∷ head.literals ∷ []) (body_at text.now head.rules head.nodes number head.next)) words.old 0 result words.new }
{
    let a = text::put(words, 0, head.rules as u16);
    let b = text::put(words, a, head.nodes as u16);
    let c = text::put(words, b, head.literals as u16);
    read_body(text, head, number, words, c)
}
