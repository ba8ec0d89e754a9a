// The type of an expression, or none. A walk without recursion: operators at work stand in a pile that the caller lends.
ghost use Rattle.std.specs.Prelude.{◌≡◌, false, Some, suc, ◌<◌, length};
ghost use Rattle.grammar.specs.declared.Operator.TheVariants.{Equal};
ghost use Rattle.grammar.specs.Tree.{expr_at};
ghost use Rattle.grammar.specs.Types.{expr_type, has, if_both, operator_type, negation_type};
ghost use Rattle.typing.specs.Checked.{CheckedKind, CheckedNode};
ghost use Rattle.typing.specs.Slots.{types_in};
ghost use Rattle.typing.specs.Types.{number, number_if_any};
ghost use Rattle.typing.specs.Expressions.{at_work, is_operator, JudgedOn, Judges, kind_type, node_due, type_found};

use crate::slots::Slots;
use crate::value_type::ValueType;
use table::kinds::Kind;
use table::records::{kind_at, node_word};

// Both operands have the type wanted, or there is none.
fn both(wanted: ValueType, given: ValueType, s: ValueType, t: ValueType) -> Option<ValueType>
    ensures { number_if_any result ≡ if_both (number wanted) (number given) (number s) (number t) }
{
    if s == wanted && t == wanted {
        Some(given)
    } else {
        None
    }
}

// "equal takes two of one type"
#[tactic(auto, unfolding(grammar::specs::Types::operator_type))]
fn equal_type(s: ValueType, t: ValueType) -> Option<ValueType>
    ensures { number_if_any result ≡ operator_type Equal (number s) (number t) }
{
    if s == t { Some(ValueType::Bool) } else { None }
}

// "not take Bools"
fn negation_type(t: ValueType) -> Option<ValueType>
    ensures { number_if_any result ≡ negation_type (number t) }
{
    if t == ValueType::Bool { Some(t) } else { None }
}

// "Add, subtract, multiply, divide take Integers; greater takes Integers, gives Bool; equal takes two of one type; and, or, not take Bools."
fn operator_type(kind: Kind, s: ValueType, t: ValueType) -> Option<ValueType>
    ensures { number_if_any result ≡ kind_type kind (number s) (number t) }
{
    match kind {
        Kind::Equal => equal_type(s, t),
        Kind::Greater => both(ValueType::Integer, ValueType::Bool, s, t),
        Kind::And | Kind::Or => both(ValueType::Bool, ValueType::Bool, s, t),
        _ => both(ValueType::Integer, ValueType::Integer, s, t),
    }
}

// The operators.
#[tactic(auto, unfolding(crate::specs::Expressions::is_operator))]
fn is_operator(kind: Kind) -> bool
    ensures { result ≡ is_operator kind }
{
    match kind {
        Kind::Add | Kind::Subtract | Kind::Multiply | Kind::Divide => true,
        Kind::Equal | Kind::Greater | Kind::And | Kind::Or | Kind::Negation => true,
        _ => false,
    }
}

// The type of node k, which is no operator. A node that is no expression stands for a Bool, and no table that passes the check has one here.
fn leaf_type(words: &[u16], slots: Slots, kind: Kind, k: u16) -> Option<ValueType>
    requires { CheckedKind words.now (suc k) k kind × (is_operator kind ≡ false) }
    ensures { number_if_any result ≡ expr_type (types_in slots) (expr_at words.now k) }
{
    match kind {
        Kind::Integer => Some(ValueType::Integer),
        Kind::Text => Some(ValueType::Text),
        Kind::Slot => slots.type_of(node_word(words, k, 1)),
        _ => Some(ValueType::Bool),
    }
}

// An operator at work as one number: its kind's number and its right operand, while the left one is judged; then that number and 32, and the left one's type.
// (A number and no enum: it stands in the pile that both walks share, whose 1,024 places are 8 KB of a stack that is to stay under 16 KB.)
fn at_work(code: u64, number: u16) -> u64
    requires { code < 65536 }
    ensures { result ≡ at_work code number }
{
    code * 65536 + u64::from(number)
}

// What a walk over an expression has come to. (`parsing` has its own, whose node comes with slots: one generic type for both would name their parts less plainly.)
#[derive(Clone, Copy)]
pub enum Step {
    // A node is due.
    Due(u16),
    // This type was found, or none.
    Found(Option<ValueType>),
}

// The walk: its step, and how many operators are at work.
#[derive(Clone, Copy)]
pub struct Judging {
    pub step: Step,
    pub top: usize,
}

// Node k is due: an operator goes to work, and its first operand is due.
fn judge(words: &[u16], pile: &mut [u64], slots: Slots, k: u16, top: usize) -> Judging
    requires { Judges words.now pile.old (node_due k top) }
    ensures { JudgedOn words.now slots pile.old (node_due k top) pile.new result }
{
    let number = kind_at(words, k);
    let kind = Kind::from(number);
    if !is_operator(kind) {
        let step = Step::Found(leaf_type(words, slots, kind, k));
        return Judging { step, top };
    }
    let first = node_word(words, k, 1);
    let second = node_word(words, k, 2);
    pile[top] = at_work(u64::from(number), second);
    Judging {
        step: Step::Due(first),
        top: top + 1,
    }
}

// A type was found, and goes to the topmost operator at work. (`words` and `slots` are there for the contract alone.)
fn apply(words: &[u16], pile: &mut [u64], slots: Slots, t: ValueType, top: usize) -> Judging
    requires { Judges words.now pile.old (type_found (Some t) top) × (0 < top) }
    ensures { JudgedOn words.now slots pile.old (type_found (Some t) top) pile.new result }
{
    let last = top - 1;
    let f = pile[last];
    let code = f / 65536;
    let number = (f % 65536) as u16;
    let kind = Kind::from((code % 32) as u16);
    if kind == Kind::Negation {
        let step = Step::Found(negation_type(t));
        return Judging { step, top: last };
    }
    if code < 32 {
        pile[last] = at_work(code + 32, u16::from(t));
        let step = Step::Due(number);
        return Judging { step, top };
    }
    let left = ValueType::try_from(number).unwrap();
    let step = Step::Found(operator_type(kind, left, t));
    Judging { step, top: last }
}

// The type of node k. An operand without a type leaves the whole expression without one.
pub(crate) fn expression_type(
    words: &[u16],
    pile: &mut [u64],
    slots: Slots,
    k: u16,
) -> Option<ValueType>
    requires { CheckedNode words.now (length pile.old) k }
    ensures { number_if_any result ≡ expr_type (types_in slots) (expr_at words.now k) }
{
    let mut walk = Judging {
        step: Step::Due(k),
        top: 0,
    };
    loop {
        let top = walk.top;
        match walk.step {
            Step::Due(node) => walk = judge(words, pile, slots, node, top),
            Step::Found(found) => {
                if top == 0 {
                    return found;
                }
                walk = apply(words, pile, slots, found?, top);
            }
        }
    }
}

// Has node k the type t?
#[tactic(auto, unfolding(grammar::specs::Types::has))]
pub(crate) fn has_type(words: &[u16], pile: &mut [u64], slots: Slots, k: u16, t: ValueType) -> bool
    requires { CheckedNode words.now (length pile.old) k }
    ensures { result ≡ has (types_in slots) (expr_at words.now k) (number t) }
{
    match expression_type(words, pile, slots, k) {
        Some(found) => found == t,
        None => false,
    }
}
