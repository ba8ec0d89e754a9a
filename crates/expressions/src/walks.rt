// A walk over an expression without recursion: the operators at work stand in a pile of numbers. An operand that is a leaf gives its value at once, and its operator needs no place
// for it. The larger functions of a step have one caller each: so the compiler lays the whole step into the loop.
ghost use Rattle.std.specs.Prelude.{◌≡◌, true, false, ◌<◌, ◌≤◌, length};
ghost use Rattle.laws.specs.Pile.{comes_to};
ghost use Rattle.grammar.specs.Words.{node_start};
ghost use Rattle.expressions.specs.declared.walks.Way.TheVariants.{Left};
ghost use Rattle.expressions.specs.Given.{given};
ghost use Rattle.expressions.specs.Walks.{asked, came, resolved_at, walking, Steps, Filled, operator_begins, result_found, half_found, has_left, has_both, goes_on, looks_no_further, Seen, Opened, TakenUp, WithOne, WithRight, WithLeft, Turned, Resumed, Settled, Rested};

use crate::results::{Given, leaf, negate_given, operate_given, operator, stuck};
use table::records::{Head, head_from, node_place};

// A walk over an expression, on top of so many operators at work: operator j, of node k, begins, and a and b are its operands; or a result was found.
// (As an enum of the two, with what each has, it takes 7 % more instructions a visit of (d) in docs/SPEED.md. j is the operator's number, as on the pile: a place there is a number of eight
// bytes, since 1,024 places of an enum with a Value in it would take 16 KB of stack by themselves.)
#[derive(Clone, Copy)]
pub struct Walk {
    pub begins: bool,
    pub top: usize,
    pub j: u8,
    pub k: u16,
    pub a: u16,
    pub b: u16,
    pub g: Given,
}

#[derive(Clone, Copy)]
pub enum Way {
    Begins,
    Found,
    Left,
    Both,
}

// Halfway through a step: an operator begins; a result was found, v; operator j, of node k, has its left or only value, v; or it has both, v and w.
// (As an enum, beside a walk that is one too, it takes 14 % more instructions a visit of (d), and more than twice the time: the compiler keeps the two in memory.)
#[derive(Clone, Copy)]
pub struct Halfway {
    pub way: Way,
    pub top: usize,
    pub j: u8,
    pub k: u16,
    pub a: u16,
    pub b: u16,
    pub v: Given,
    pub w: Given,
}

fn begun(h: Head, k: u16, top: usize) -> Walk
    requires { (20 ≤ h.kind) × (h.kind ≤ 28) }
    ensures { result ≡ operator_begins h k top }
{
    Walk {
        begins: true,
        top,
        j: (h.kind - 20) as u8,
        k,
        a: h.a,
        b: h.b,
        g: Given { tag: 0, payload: 0 },
    }
}

fn result(g: Given, top: usize) -> Walk
    ensures { result ≡ result_found g top }
{
    Walk {
        begins: false,
        top,
        j: 0,
        k: 0,
        a: 0,
        b: 0,
        g,
    }
}

fn found(g: Given, top: usize) -> Halfway
    ensures { result ≡ half_found g top }
{
    Halfway {
        way: Way::Found,
        top,
        j: 0,
        k: 0,
        a: 0,
        b: 0,
        v: g,
        w: Given { tag: 0, payload: 0 },
    }
}

fn has_left(j: u8, k: u16, b: u16, v: Given, top: usize) -> Halfway
    ensures { result ≡ has_left j k b v top }
{
    Halfway {
        way: Way::Left,
        top,
        j,
        k,
        a: 0,
        b,
        v,
        w: Given { tag: 0, payload: 0 },
    }
}

fn has_both(j: u8, k: u16, v: Given, w: Given, top: usize) -> Halfway
    ensures { result ≡ has_both j k v w top }
{
    Halfway {
        way: Way::Both,
        top,
        j,
        k,
        a: 0,
        b: 0,
        v,
        w,
    }
}

// The words, the slots, where the records begin and the levels go through a step one by one: as fields of one struct they take 3 % more instructions a visit of (d).
// Node k, on level n. `levels` levels are looked at; what lies deeper, or has a number that is no expression's kind, counts as false, as kind 0 does.
fn seen(words: &[u16], first: u32, levels: usize, n: usize, k: u16) -> Head
    requires { first ≡ node_start words.now 0 }
    ensures { Seen words.now levels n k result }
{
    if levels <= n {
        return Head {
            kind: 0,
            a: 0,
            b: 0,
        };
    }
    let h = head_from(words, first, k);
    if 28 < h.kind {
        return Head {
            kind: 0,
            a: 0,
            b: 0,
        };
    }
    h
}

// An operator goes to work, on top of n others, as one number of two halves; and its operand, node k, is an operator too, which begins.
fn put_to_work(n: usize, upper: u64, lower: u32, k: u16, h: Head, pile: &mut [u64]) -> Halfway
    requires { (n < length pile.old) × (upper < 4294967296) × (20 ≤ h.kind) × (h.kind ≤ 28) }
    ensures { Opened pile.old n upper lower k h pile.new result }
{
    pile[n] = upper * 4294967296 + u64::from(lower);
    Halfway {
        way: Way::Begins,
        top: n + 1,
        j: (h.kind - 20) as u8,
        k,
        a: h.a,
        b: h.b,
        v: Given { tag: 0, payload: 0 },
        w: Given { tag: 0, payload: 0 },
    }
}

// An operator begins: "left operand first". If that is an operator, kinds 20 to 28, it begins in its turn; a leaf has its result at once.
fn enter(
    words: &[u16],
    slots: &[u32],
    first: u32,
    levels: usize,
    w: Walk,
    pile: &mut [u64],
) -> Halfway
    requires { (first ≡ node_start words.now 0) × (w.begins ≡ true) × (w.top < length pile.old) }
    ensures { TakenUp pile.old pile.new words.now slots.now levels w result }
{
    let h = seen(words, first, levels, w.top + 1, w.a);
    if 20 <= h.kind {
        let upper = u64::from(w.j) * 65536 + u64::from(w.k);
        return put_to_work(w.top, upper, u32::from(w.b), w.a, h, pile);
    }
    let g = leaf(slots, h.kind, w.a, h.a, h.b);
    if 5 <= g.tag {
        return found(g, w.top);
    }
    has_left(w.j, w.k, w.b, g, w.top)
}

// A value was found, and goes to the operator on top: as its left or only one, or as its right one.
fn resume(w: Walk, pile: &[u64]) -> Halfway
    requires { (w.begins ≡ false) × (w.g.tag < 5) × (0 < w.top) × (w.top ≤ length pile.now) }
    ensures { Resumed pile.now w result }
{
    let n = w.top - 1;
    let f = pile[n];
    let upper = f / 4294967296;
    let lower = (f % 4294967296) as u32;
    let k = (upper % 65536) as u16;
    let j = (upper / 65536 % 256) as u8;
    let t = upper / 16777216;
    let g = w.g;
    if 0 < t {
        let v = Given {
            tag: t - 1,
            payload: lower,
        };
        return has_both(j, k, v, g, n);
    }
    has_left(j, k, (lower % 65536) as u16, g, n)
}

// Operator j, of node k, has its left value and turns to its right operand, node b: the operator goes to work again, with that value, or has both values at once.
fn right(
    words: &[u16],
    slots: &[u32],
    first: u32,
    levels: usize,
    s: Halfway,
    pile: &mut [u64],
) -> Halfway
    requires { (first ≡ node_start words.now 0) × (s.v.tag < 5) × (s.j < 8) × (s.top < length pile.old) }
    ensures { WithRight pile.old pile.new words.now slots.now levels s.top s.j s.k s.b s.v result }
{
    let v = s.v;
    let h = seen(words, first, levels, s.top + 1, s.b);
    if 20 <= h.kind {
        let upper = (v.tag + 1) * 16777216 + u64::from(s.j) * 65536 + u64::from(s.k);
        return put_to_work(s.top, upper, v.payload, s.b, h, pile);
    }
    let r = leaf(slots, h.kind, s.b, h.a, h.b);
    if 5 <= r.tag {
        return found(r, s.top);
    }
    has_both(s.j, s.k, v, r, s.top)
}

// Does operator j, with its left or only value, look at no right operand? "And, or look at the left value first": it isn't Bool, or decides. Not has no other.
fn looks_no_further(j: u8, v: Given) -> bool
    ensures { result ≡ looks_no_further j v }
{
    if j < 6 {
        return false;
    }
    if 8 <= j {
        return true;
    }
    if v.tag != 1 {
        return true;
    }
    (v.payload == 1) == (j == 7)
}

// And what it gives then.
fn with_one(j: u8, k: u16, v: Given) -> Given
    requires { looks_no_further j v ≡ true }
    ensures { WithOne j k v result }
{
    if 8 <= j {
        return negate_given(k, v);
    }
    if v.tag != 1 {
        return stuck(k);
    }
    Given {
        tag: 1,
        payload: v.payload,
    }
}

// An operator has its left or only value.
fn after_left(
    words: &[u16],
    slots: &[u32],
    first: u32,
    levels: usize,
    s: Halfway,
    pile: &mut [u64],
) -> Halfway
    requires { (first ≡ node_start words.now 0) × (s.v.tag < 5) × (s.top < length pile.old) }
    ensures { WithLeft pile.old pile.new words.now slots.now levels s.top s.j s.k s.b s.v result }
{
    if looks_no_further(s.j, s.v) {
        return found(with_one(s.j, s.k, s.v), s.top);
    }
    right(words, slots, first, levels, s, pile)
}

// First half of a step: an operator begins, or a value goes to the operator that waits for it.
fn take_up(
    words: &[u16],
    slots: &[u32],
    first: u32,
    levels: usize,
    w: Walk,
    pile: &mut [u64],
) -> Halfway
    requires { (first ≡ node_start words.now 0) × (goes_on (length pile.old) w ≡ true) × (w.top ≤ length pile.old) }
    ensures { TakenUp pile.old pile.new words.now slots.now levels w result }
{
    if w.begins {
        return enter(words, slots, first, levels, w, pile);
    }
    resume(w, pile)
}

// Then an operator that has its left value goes on.
fn turn(
    words: &[u16],
    slots: &[u32],
    first: u32,
    levels: usize,
    s: Halfway,
    pile: &mut [u64],
) -> Halfway
    requires { (first ≡ node_start words.now 0) × (s.way ≡ Left → (s.v.tag < 5) × (s.top < length pile.old)) }
    ensures { Turned pile.old pile.new words.now slots.now levels s result }
{
    match s.way {
        Way::Left => after_left(words, slots, first, levels, s, pile),
        _ => s,
    }
}

// And one that has both operates: "types are looked at after the operands".
fn settle<'a>(literals: &'a [u8], message: &'a [u8], s: Halfway) -> Walk
    requires { s.way ≡ Left → ⊥ }
    ensures { Settled literals.now message.now s result }
{
    match s.way {
        Way::Begins => Walk {
            begins: true,
            top: s.top,
            j: s.j,
            k: s.k,
            a: s.a,
            b: s.b,
            g: s.v,
        },
        Way::Found => result(s.v, s.top),
        Way::Left => result(s.v, s.top),
        Way::Both => {
            let g = operate_given(message, literals, operator(s.j), s.k, s.v, s.w);
            result(g, s.top)
        }
    }
}

// Until the result is there: a value that no operator waits for, or why the run ends (tags from 5 on). It stops too where an operator begins and the pile has no place for it.
fn goes_on(w: Walk, room: usize) -> bool
    ensures { result ≡ goes_on room w }
{
    if w.begins {
        return w.top < room;
    }
    if 5 <= w.g.tag {
        return false;
    }
    0 < w.top
}

fn step<'a>(
    words: &[u16],
    literals: &'a [u8],
    message: &'a [u8],
    slots: &[u32],
    first: u32,
    levels: usize,
    w: Walk,
    pile: &mut [u64],
) -> Walk
    requires { (first ≡ node_start words.now 0) × (goes_on (length pile.old) w ≡ true) × Filled levels pile.old w.top }
    ensures { Steps (asked words.now literals.now message.now slots.now levels) (walking (asked words.now literals.now message.now slots.now levels) pile.old w) pile.new result }
{
    let s = take_up(words, slots, first, levels, w, pile);
    let t = turn(words, slots, first, levels, s, pile);
    settle(literals, message, t)
}

// Goes on until the expression has its result, or the pile has no room for an operator that begins.
fn walk_on<'a>(
    words: &[u16],
    literals: &'a [u8],
    message: &'a [u8],
    slots: &[u32],
    levels: usize,
    from: Walk,
    pile: &mut [u64],
) -> Walk
    requires { Filled levels pile.old from.top }
    ensures { Rested (asked words.now literals.now message.now slots.now levels) pile.old from pile.new result }
{
    let first = node_place(words, 0);
    let mut w = from;
    while goes_on(w, pile.len()) {
        w = step(words, literals, message, slots, first, levels, w, pile);
    }
    w
}

// On with 1,024 places: as many as there are levels.
fn walk_deeper<'a>(
    words: &[u16],
    literals: &'a [u8],
    message: &'a [u8],
    slots: &[u32],
    levels: usize,
    w: Walk,
    pile: &[u64],
) -> Given
    requires { (0 < levels) × (levels ≤ 1024) × Filled levels pile.now w.top × (length pile.now ≤ 1024) }
    ensures { given result ≡ comes_to (resolved_at (asked words.now literals.now message.now slots.now levels)) (walking (asked words.now literals.now message.now slots.now levels) pile.now w) }
{
    let mut longer = [0u64; 1024];
    longer[..pile.len()].copy_from_slice(pile);
    let v = walk_on(words, literals, message, slots, levels, w, &mut longer);
    v.g
}

// A leaf wants no pile. Sixteen places are enough for most expressions, and quickly cleared.
pub(crate) fn walked<'a>(
    words: &[u16],
    literals: &'a [u8],
    message: &'a [u8],
    slots: &[u32],
    levels: usize,
    k: u16,
) -> Given
    requires { (0 < levels) × (levels ≤ 1024) }
    ensures { given result ≡ came (asked words.now literals.now message.now slots.now levels) k }
{
    let h = seen(words, node_place(words, 0), levels, 0, k);
    if h.kind < 20 {
        return leaf(slots, h.kind, k, h.a, h.b);
    }
    let mut pile = [0u64; 16];
    let from = begun(h, k, 0);
    let w = walk_on(words, literals, message, slots, levels, from, &mut pile);
    if w.begins {
        return walk_deeper(words, literals, message, slots, levels, w, &pile);
    }
    w.g
}
