// Words of a lent area, read and written for every index: past the end a read gives 0, and a write does nothing.
ghost use Rattle.std.specs.Prelude.{◌≡◌, ◌+◌, ◌-◌, ◌≤◌, ◌<◌, length, get_or};
ghost use Rattle.frames.specs.Frames.{Taken, stored, copied, cleared};

use values::slots::write_word;

pub(crate) fn get(words: &[u32], i: usize) -> u32
    ensures { result ≡ get_or words.now i 0 }
{
    words.get(i).copied().unwrap_or(0)
}

// The sixteen slots that stand from word `from` on, in an array of their own. Here and in `put` by a loop over all 32 (ii): copy_from_slice isn't put into
// its callers, and a visit of bench (a) takes 354 instructions with it, not 277; of (e) 253, not 189.
fn taken(words: &[u32], from: usize) -> [u32; 32]
    requires { from + 32 ≤ length words.now }
    ensures { Taken words.now from result }
{
    let mut slots = [0; 32];
    for i in 0..32 {
        slots[i] = words[from + i];
    }
    slots
}

// Sixteen slots come to stand from word `to` on.
fn put(words: &mut [u32], to: usize, slots: [u32; 32])
    requires { to + 32 ≤ length words.old }
    ensures { words.new ≡ stored words.old to slots 32 }
{
    for j in 0..32 {
        words[to + j] = slots[j];
    }
}

// Where the words end within one of the two ranges. By number (iv): one slice is read and written in turn, which no iterator does.
fn copy_across(words: &mut [u32], from: usize, to: usize)
    requires { (from + 32 < 4294967296) × (to + 32 < 4294967296) }
    ensures { words.new ≡ copied words.old from to 32 }
{
    for i in 0..32 {
        let word = get(words, from + i);
        write_word(words, to + i, word);
    }
}

// Sixteen slots from one place to another, which lie apart. Through an array, and not by `copy_within` (ii): of two parts of one area the compiler
// can't know that they lie apart, and moves word by word; a visit of (a) takes 318 instructions with it, not 255, of (b) 202, not 172, of (e) 227, not 167.
pub(crate) fn copy(words: &mut [u32], from: usize, to: usize)
    requires { (from + 32 < 4294967296) × (to + 32 < 4294967296) × (32 ≤ (from - to) + (to - from)) }
    ensures { words.new ≡ copied words.old from to 32 }
{
    if words.len() < from.max(to) + 32 {
        copy_across(words, from, to);
        return;
    }
    let slots = taken(words, from);
    put(words, to, slots);
}

// The first n words become 0.
pub(crate) fn clear(words: &mut [u32], n: usize)
    ensures { words.new ≡ cleared words.old n }
{
    let there = n.min(words.len());
    words[..there].fill(0);
}
