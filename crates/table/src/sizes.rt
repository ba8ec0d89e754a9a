// SIZE.
ghost use Rattle.std.specs.Prelude.{◌≡◌};
ghost use Rattle.laws.specs.Range.{within};
ghost use Rattle.grammar.specs.Form.{size_ok};

use super::records::{literal_count, node_count, rule_count};

// A word as a length.
pub fn wide(word: u16) -> usize
    ensures { result ≡ word }
{
    usize::from(word)
}

// Is n in a range, both ends included?
pub fn in_range(low: usize, high: usize, n: usize) -> bool
    ensures { result ≡ within low high n }
{
    (low..=high).contains(&n)
}

// "under 3 words, R, K or L out of range, words not 3+15R+10K, literal bytes not L": the opposite.
pub fn size_ok(words: &[u16], literal_bytes: usize) -> bool
    ensures { result ≡ size_ok words.now literal_bytes }
{
    let rules = usize::from(rule_count(words));
    let nodes = usize::from(node_count(words));
    let literals = usize::from(literal_count(words));
    3 <= words.len()
        && in_range(1, 64, rules)
        && in_range(1, 1024, nodes)
        && literals <= 4096
        && words.len() == 3 + 15 * rules + 10 * nodes
        && literal_bytes == literals
}
