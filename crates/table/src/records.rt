// Where the records of a table lie, and what stands there. Only this module knows it, and the scan of `form`, which goes over all
// words; each function answers every number, 0 past the table's end.
ghost use Rattle.std.specs.Prelude.{◌≡◌, ◌+◌, ◌*◌, ◌<◌, ◌≤◌};
ghost use Rattle.grammar.specs.Words.{inherited_count, literal_count, node_at, node_count, node_start, kind_at, node_word, returned_count, rule_count, rule_start, rule_word, word};
ghost use Rattle.table.specs.Fields.{call_at, head_in, place_from};

use super::kinds::Kind;
use grammar::{Arithmetic, Node, Operator};
use values::words::signed_of;

// Word i, 0 past the end.
pub fn word_at(words: &[u16], i: usize) -> u16
    ensures { result ≡ word words.now i }
{
    words.get(i).copied().unwrap_or(0)
}

// "Words 0 to 2: R rules, K nodes, L literal bytes."
pub fn rule_count(words: &[u16]) -> u16
    ensures { result ≡ rule_count words.now }
{
    word_at(words, 0)
}

pub fn node_count(words: &[u16]) -> u16
    ensures { result ≡ node_count words.now }
{
    word_at(words, 1)
}

pub fn literal_count(words: &[u16]) -> u16
    ensures { result ≡ literal_count words.now }
{
    word_at(words, 2)
}

// "Then R rule records of 15 words": the first word of rule r.
pub fn rule_start(r: u16) -> usize
    ensures { result ≡ rule_start r }
{
    3 + 15 * usize::from(r)
}

// "then K node records of 10": the first word of node k behind so many rules.
pub fn node_start(rules: u16, k: u16) -> usize
    ensures { result ≡ 3 + 15 * rules + 10 * k }
{
    3 + 15 * usize::from(rules) + 10 * usize::from(k)
}

// Word j of rule r.
pub fn rule_word(words: &[u16], r: u16, j: u16) -> u16
    ensures { result ≡ rule_word words.now r j }
{
    word_at(words, rule_start(r) + usize::from(j))
}

// "Node record: kind and fields a, b, .. (nine)."
pub fn kind_at(words: &[u16], k: u16) -> u16
    ensures { result ≡ kind_at words.now k }
{
    word_at(words, node_start(rule_count(words), k))
}

// Word j of node k.
pub fn node_word(words: &[u16], k: u16, j: u16) -> u16
    ensures { result ≡ node_word words.now k j }
{
    word_at(words, node_start(rule_count(words), k) + usize::from(j))
}

// Where the record of node k lies: for readers that look at its kind first, and then only at the fields that this kind has.
pub fn node_place(words: &[u16], k: u16) -> u32
    ensures { result ≡ node_start words.now k }
{
    3 + 15 * u32::from(rule_count(words)) + 10 * u32::from(k)
}

// The kind of the record at a place.
pub fn kind_in(words: &[u16], place: u32) -> u16
    ensures { result ≡ word words.now place }
{
    word_at(words, place as usize)
}

// Word j of the record at a place: fields a, b, .. are words 1 to 9.
pub fn field_in(words: &[u16], place: u32, j: u16) -> u16
    ensures { result ≡ word words.now (place + j) }
{
    word_at(words, place as usize + usize::from(j))
}

// The kind and the fields a and b: all that an expression has.
#[derive(Clone, Copy)]
pub struct Head {
    pub kind: u16,
    pub a: u16,
    pub b: u16,
}

// Kind and fields a and b of node k, for readers of many nodes: they ask once where the record of node 0 lies.
pub fn head_from(words: &[u16], first: u32, k: u16) -> Head
    ensures { result ≡ head_in words.now (place_from first k) }
{
    let at = first as usize + 10 * usize::from(k);
    if at + 2 < words.len() {
        return Head {
            kind: words[at],
            a: words[at + 1],
            b: words[at + 2],
        };
    }
    Head {
        kind: word_at(words, at),
        a: word_at(words, at + 1),
        b: word_at(words, at + 2),
    }
}

// Word i of those that begin at word `first` of rule r.
fn rule_place(words: &[u16], r: u16, first: u8, i: u16) -> u16
    ensures { result ≡ rule_word words.now r (first + i) }
{
    word_at(words, rule_start(r) + (usize::from(first) + usize::from(i)))
}

// "Rule record: body node; n inherited; four types; m returned; four returned nodes; four returned types."
pub fn body(words: &[u16], r: u16) -> u16
    ensures { result ≡ rule_word words.now r 0 }
{
    rule_word(words, r, 0)
}

pub fn inherited_count(words: &[u16], r: u16) -> u16
    ensures { result ≡ inherited_count words.now r }
{
    rule_word(words, r, 1)
}

pub fn inherited_type(words: &[u16], r: u16, i: u16) -> u16
    ensures { result ≡ rule_word words.now r (2 + i) }
{
    rule_place(words, r, 2, i)
}

pub fn returned_count(words: &[u16], r: u16) -> u16
    ensures { result ≡ returned_count words.now r }
{
    rule_word(words, r, 6)
}

pub fn returned_node(words: &[u16], r: u16, i: u16) -> u16
    ensures { result ≡ rule_word words.now r (7 + i) }
{
    rule_place(words, r, 7, i)
}

pub fn returned_type(words: &[u16], r: u16, i: u16) -> u16
    ensures { result ≡ rule_word words.now r (11 + i) }
{
    rule_place(words, r, 11, i)
}

// Node k, which is a call.
fn call_at(words: &[u16], k: u16) -> Node
    ensures { result ≡ call_at words.now k }
{
    Node::Call(
        node_word(words, k, 1),
        node_word(words, k, 2),
        node_word(words, k, 3),
        node_word(words, k, 4),
        node_word(words, k, 5),
        node_word(words, k, 6),
        node_word(words, k, 7),
        node_word(words, k, 8),
        node_word(words, k, 9),
    )
}

// Node k of the table. A kind that document 01 has no line for is Unknown.
pub fn node_at(words: &[u16], k: u16) -> Node
    ensures { result ≡ node_at words.now k }
{
    let a = node_word(words, k, 1);
    let b = node_word(words, k, 2);
    match Kind::from(kind_at(words, k)) {
        Kind::Unknown => Node::Unknown,
        Kind::Empty => Node::Empty,
        Kind::Terminal => Node::Terminal(a),
        Kind::Sequence => Node::Sequence(a, b),
        Kind::Choice => Node::Choice(a, b),
        Kind::Repeat => Node::Repeat(a),
        Kind::Not => Node::Not(a),
        Kind::Call => call_at(words, k),
        Kind::Bind => Node::Bind(a, b),
        Kind::Update => Node::Update(a, b),
        Kind::Constraint => Node::Constraint(a),
        Kind::Bool => Node::Bool(a == 1),
        Kind::Integer => Node::Integer(signed_of(a, b)),
        Kind::Text => Node::Text(a, b),
        Kind::Slot => Node::Slot(a),
        Kind::Add => Node::Binary(Operator::Calculate(Arithmetic::Add), a, b),
        Kind::Subtract => Node::Binary(Operator::Calculate(Arithmetic::Subtract), a, b),
        Kind::Multiply => Node::Binary(Operator::Calculate(Arithmetic::Multiply), a, b),
        Kind::Divide => Node::Binary(Operator::Calculate(Arithmetic::Divide), a, b),
        Kind::Equal => Node::Binary(Operator::Equal, a, b),
        Kind::Greater => Node::Binary(Operator::Greater, a, b),
        Kind::And => Node::Binary(Operator::And, a, b),
        Kind::Or => Node::Binary(Operator::Or, a, b),
        Kind::Negation => Node::Negation(a),
    }
}
