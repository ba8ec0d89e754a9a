// FIELD: the first word, in word order, that breaks the rules of its record. The same scan counts the uses, for USE.
ghost use Rattle.std.specs.Prelude.{◌≡◌, ◌<◌, ◌&&◌, cond, leb, get_or, replicate};
ghost use Rattle.grammar.specs.Form.{is_kind, is_part};
ghost use Rattle.form.specs.Sorts;
ghost use Rattle.form.specs.Scan;
ghost use Rattle.form.specs.Scan.{Scanned, Sized};

use super::sorts::*;
use super::uses::count_use;
use table::records::{kind_at, literal_count, node_count, rule_count, word_at};

// Document 01 lists 1 to 10 as parsing nodes and 16 to 28 as expressions.
fn is_kind(w: u16) -> bool
    ensures { result ≡ is_kind w }
{
    (1..=10).contains(&w) || (16..=28).contains(&w)
}

// "A part or argument has a smaller number than its node and is of the sort wanted": of a kind from low to high.
fn is_part(words: &[u16], low: u16, high: u16, bound: u16, w: u16) -> bool
    ensures { result ≡ is_part words.now (λ kind. leb low kind && leb kind high) bound w }
{
    w < bound && (low..=high).contains(&kind_at(words, w))
}

// The word w is of the sort in force. Any other number of a sort asks for 0, as UNUSED does.
fn passes(words: &[u16], bound: u16, start: usize, sort: u8, w: u16) -> bool
    requires { start < 4294967296 }
    ensures { result ≡ Sorts.passes words.now start bound sort w }
{
    match sort {
        BYTE => w < 256,
        BIT => w < 2,
        ANY => true,
        PARSING => is_part(words, 1, 10, bound, w),
        EXPRESSION => is_part(words, 16, 28, bound, w),
        RULE => w < rule_count(words),
        SLOT => w < 16,
        TEXT_START => w <= literal_count(words),
        TEXT_LENGTH => {
            u32::from(word_at(words, start + 1)) + u32::from(w) <= u32::from(literal_count(words))
        }
        COUNT => w <= 4,
        TYPE => (1..=3).contains(&w),
        KIND => is_kind(w),
        _ => w == 0,
    }
}

// The word w, whose sort in its record's table is `own`, is of the sort in force; then, where it uses a node, the use is counted. There is room for it.
fn word_ok(
    words: &[u16],
    counts: &mut [u16; 1024],
    bound: u16,
    start: usize,
    own: u8,
    w: u16,
) -> bool
    requires start_bound { start < 4294967296 }
    requires w_bound { get_or counts.old w 0 < 65535 }
    ensures value { result ≡ Sorts.passes words.now start bound (Sorts.force words.now start own) w }
    ensures counts_after { counts.new ≡ cond result (Scan.one_more counts.old (Sorts.force words.now start own) w) counts.old }
{
    if own == UNUSED {
        return w == 0;
    }
    let sort = in_force(words, start, own);
    if !passes(words, bound, start, sort, w) {
        return false;
    }
    count_use(counts, sort, w);
    true
}

fn record_length(rules: u16, q: u16) -> u16
    ensures { result ≡ Scan.record_length rules q }
{
    if q < rules { 15 } else { 10 }
}

// "A part or argument has a smaller number than its node"; a rule's body and returned nodes may be any nodes.
fn record_bound(rules: u16, nodes: u16, q: u16) -> u16
    ensures { result ≡ Scan.record_bound rules nodes q }
{
    if q < rules { nodes } else { q - rules }
}

// "The scan for FIELD stops inside a record at its first bad word": the first bad word, in word order. Where there is none, the counts, all 0 at first,
// are those of the uses.
pub(crate) fn first_bad(words: &[u16], counts: &mut [u16; 1024]) -> Option<usize>
    requires sized { Sized words.now }
    requires counts_value { counts.old ≡ replicate 1024 0 }
    ensures { Scanned words.now counts.new result }
{
    let rows = FIELD_SORTS;
    let rules = rule_count(words);
    let nodes = node_count(words);
    let mut bad = None;
    let mut start: usize = 3;
    'records: for q in 0..rules + nodes {
        let size = record_length(rules, q);
        let bound = record_bound(rules, nodes, q);
        let row = row_of(words[start]);
        for j in 0..size {
            let i = start + usize::from(j);
            let own = record_sort(&rows, rules, q, row, j);
            if !word_ok(words, counts, bound, start, own, words[i]) {
                bad = Some(i);
                break 'records;
            }
        }
        start += usize::from(size);
    }
    bad
}
