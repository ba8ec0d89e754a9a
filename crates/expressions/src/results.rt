// Results in two words, and what leaves and operators give.
ghost use Rattle.std.specs.Prelude.{◌≡◌, ◌<◌, take};
ghost use Rattle.grammar.specs.Values.{integers, number_at, present, equal, operate, negated, want_bool};
ghost use Rattle.grammar.specs.Values as written;
ghost use Rattle.values.specs.Slots.{slots_of, slot_at};
ghost use Rattle.expressions.specs.Meant.{meant, of_integers};
ghost use Rattle.expressions.specs.Given.{given, held, operator_of, leaf_of, is_text, both_integers, span_in};

use grammar::{Arithmetic, Ended, Ending, Fault, Operator, Span, Value};
use values::slots::value_of;
use values::words::{integer_of, word_of};

// A result in two words: a value's tag and payload as in a slot; or, from tag 5 on, why the run ends, and the node. (In 64 bits together the compiler would keep the two in one
// register, and take them apart at each use: hence the wide tag. A Result<Value, Ended> here takes 4 % more instructions a visit of (d) in docs/SPEED.md, and 3 % more of (c).)
#[derive(Clone, Copy)]
pub struct Given {
    pub tag: u64,
    pub payload: u32,
}

pub(crate) fn truth(b: bool) -> Given
    ensures { given result ≡ written.truth b }
{
    Given {
        tag: 1,
        payload: u32::from(b),
    }
}

pub(crate) fn stuck(k: u16) -> Given
    ensures { given result ≡ written.stuck k }
{
    Given {
        tag: 5,
        payload: u32::from(k),
    }
}

// "an unset slot is read (the slot node)": STUCK there. "A rule has 16 attribute slots": the first 32 words.
fn slot_given(slots: &[u32], s: u16, k: u16) -> Given
    ensures { given result ≡ present k (slot_at (take 32 slots.now) s) }
{
    if 16 <= s {
        return stuck(k);
    }
    let at = 2 * usize::from(s);
    if slots.len() <= at + 1 {
        return stuck(k);
    }
    let tag = slots[at];
    if tag == 0 {
        return stuck(k);
    }
    if 4 < tag {
        return stuck(k);
    }
    Given {
        tag: u64::from(tag),
        payload: slots[at + 1],
    }
}

// A node below 20, from its kind and its fields a and b; what is no expression counts as false. Integers, 17, and Texts, 18, have tags 2 and 4.
pub(crate) fn leaf(slots: &[u32], kind: u16, k: u16, a: u16, b: u16) -> Given
    requires { kind < 20 }
    ensures { given result ≡ leaf_of (slots_of (take 32 slots.now)) kind k a b }
{
    if kind == 19 {
        return slot_given(slots, a, k);
    }
    if kind < 17 {
        return if kind == 16 {
            truth(a == 1)
        } else {
            truth(false)
        };
    }
    Given {
        tag: 2 * (u64::from(kind) - 16),
        payload: u32::from(a) * 65536 + u32::from(b),
    }
}

// An operator that takes two Integers, of node k.
fn calculated(op: Arithmetic, k: u16, a: i32, b: i32) -> Given
    ensures { given result ≡ number_at k (written.calculated op a b) }
{
    match values::numbers::calculate(op, a, b) {
        Ok(z) => Given {
            tag: 2,
            payload: word_of(z),
        },
        Err(why) => match why {
            Fault::Overflow => Given {
                tag: 6,
                payload: u32::from(k),
            },
            Fault::ZeroDivisor => Given {
                tag: 7,
                payload: u32::from(k),
            },
        },
    }
}

// The operators of kinds 20 to 27, from 0 on: on the pile an operator is its number.
pub(crate) fn operator(j: u8) -> Operator
    ensures { result ≡ operator_of j }
{
    match j {
        0 => Operator::Calculate(Arithmetic::Add),
        1 => Operator::Calculate(Arithmetic::Subtract),
        2 => Operator::Calculate(Arithmetic::Multiply),
        3 => Operator::Calculate(Arithmetic::Divide),
        4 => Operator::Equal,
        5 => Operator::Greater,
        6 => Operator::And,
        _ => Operator::Or,
    }
}

fn is_text(g: Given) -> bool
    ensures { result ≡ is_text g }
{
    if g.tag < 3 { false } else { g.tag < 5 }
}

// The part that a Text is.
fn span_in(g: Given) -> Span
    ensures { result ≡ span_in g }
{
    Span {
        literal: g.tag == 4,
        start: (g.payload / 65536) as u16,
        length: (g.payload % 65536) as u16,
    }
}

// "equal gets two types": STUCK at the operator.
fn equal_given<'a>(message: &'a [u8], literals: &'a [u8], k: u16, v: Given, w: Given) -> Given
    ensures { given result ≡ equal message.now literals.now k (held v) (held w) }
{
    if v.tag == 2 {
        if w.tag == 2 {
            return truth(values::numbers::same_integer(
                integer_of(v.payload),
                integer_of(w.payload),
            ));
        }
        return stuck(k);
    }
    if v.tag == 1 {
        if w.tag == 1 {
            return truth((v.payload == 1) == (w.payload == 1));
        }
        return stuck(k);
    }
    if is_text(v) {
        if is_text(w) {
            return truth(values::texts::same_texts(message, literals, span_in(v), span_in(w)));
        }
        return stuck(k);
    }
    stuck(k)
}

fn both_integers(v: Given, w: Given) -> bool
    ensures { result ≡ both_integers v w }
{
    v.tag == 2 && w.tag == 2
}

// An operator that takes two Integers.
fn integers_given(op: Operator, k: u16, v: Given, w: Given) -> Given
    ensures { given result ≡ integers k (held v) (held w) (of_integers op k) }
{
    if !both_integers(v, w) {
        return stuck(k);
    }
    let a = integer_of(v.payload);
    let b = integer_of(w.payload);
    match op {
        Operator::Calculate(how) => calculated(how, k, a, b),
        Operator::Greater => truth(values::numbers::greater(a, b)),
        _ => stuck(k),
    }
}

// And, or have looked at the left value already and give the right.
fn right_given(k: u16, w: Given) -> Given
    ensures { given result ≡ want_bool k (held w) written.truth }
{
    if w.tag == 1 {
        Given {
            tag: 1,
            payload: w.payload,
        }
    } else {
        stuck(k)
    }
}

// An operator of node k: "types are looked at after the operands".
pub(crate) fn operate_given<'a>(
    message: &'a [u8],
    literals: &'a [u8],
    op: Operator,
    k: u16,
    v: Given,
    w: Given,
) -> Given
    ensures { given result ≡ operate message.now literals.now op k (held v) (held w) }
{
    match op {
        Operator::Calculate(_) => integers_given(op, k, v, w),
        Operator::Equal => equal_given(message, literals, k, v, w),
        Operator::Greater => integers_given(op, k, v, w),
        Operator::And => right_given(k, w),
        Operator::Or => right_given(k, w),
    }
}

pub(crate) fn negate_given(k: u16, v: Given) -> Given
    ensures { given result ≡ negated k (held v) }
{
    if v.tag == 1 {
        truth(v.payload != 1)
    } else {
        stuck(k)
    }
}

// A result as a value, or as an end.
pub(crate) fn evaluated(g: Given) -> Result<Value, Ended>
    ensures { meant result ≡ given g }
{
    if g.tag < 5 {
        return Ok(value_of(g.tag as u32, g.payload));
    }
    let node = (g.payload % 65536) as u16;
    match g.tag {
        6 => Err(Ended {
            why: Ending::Fault(Fault::Overflow),
            node,
        }),
        7 => Err(Ended {
            why: Ending::Fault(Fault::ZeroDivisor),
            node,
        }),
        _ => Err(Ended {
            why: Ending::Stuck,
            node,
        }),
    }
}
