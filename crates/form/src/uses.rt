// USE: "Each node is used exactly once: as a part, an argument, a body or a returned node."
ghost use Rattle.std.specs.Prelude.{◌≡◌, ◌<◌, ◌≤◌, eqb, get_or};
ghost use Rattle.laws.specs.Counting.{smallest_failing};
ghost use Rattle.form.specs.Sorts;
ghost use Rattle.form.specs.Scan;

use super::sorts::{EXPRESSION, PARSING};

// A word of this sort in force uses a node: a parsing node, or an expression.
fn is_node(sort: u8) -> bool
    ensures { result ≡ Sorts.is_node sort }
{
    matches!(sort, PARSING | EXPRESSION)
}

// One use more of the node w, where a word of this sort in force uses one. A number from 1,024 on is no node's, and counts nothing.
pub(crate) fn count_use(counts: &mut [u16; 1024], sort: u8, w: u16)
    requires { get_or counts.old w 0 < 65535 }
    ensures { counts.new ≡ Scan.one_more counts.old sort w }
{
    if is_node(sort) {
        // By `get_mut` the proof doesn't close: what an array holds after a write through it isn't known.
        let k = usize::from(w);
        if k < 1024 {
            counts[k] += 1;
        }
    }
}

// The first of n counts that is not 1.
pub(crate) fn first_other(counts: &[u16; 1024], n: u16) -> Option<u16>
    requires { n ≤ 1024 }
    ensures { Scan.found result ≡ smallest_failing (λ k. eqb (get_or counts.now k 0) 1) 0 n }
{
    for k in 0..n {
        if counts[usize::from(k)] != 1 {
            return Some(k);
        }
    }
    None
}
