// What a parsing node leaves of the slots it starts from. A walk without recursion: nodes at work stand in a pile that the caller lends.
ghost use Rattle.std.specs.Prelude.{◌≡◌, false, Some, ◌^◌, ◌<◌, length};
ghost use Rattle.std.proofs.Math.Option.{some};
ghost use Rattle.laws.specs.Same.{same};
ghost use Rattle.table.specs.declared.kinds.Kind.TheVariants.{Call, Update, Constraint};
ghost use Rattle.grammar.specs.Words.{node_word};
ghost use Rattle.grammar.specs.Tree.{grammar_of, parsing_at};
ghost use Rattle.grammar.specs.Types.{provided, type_of};
ghost use Rattle.typing.specs.Checked.{CheckedKind, CheckedNode, CheckedRule};
ghost use Rattle.typing.specs.Places.{arguments_typed, received_all};
ghost use Rattle.typing.specs.Slots.{told, types_in};
ghost use Rattle.typing.specs.Walk.{at_work, first_part, has_parts, kept_of, node_due, packed, part_in, slots_found, unpacked, WalkedOn, Walks, work_of};

use crate::expressions::{expression_type, has_type};
use crate::slots::Slots;
use crate::value_type::ValueType;
use table::kinds::Kind;
use table::records::{
    inherited_count, inherited_type, kind_at, node_word, returned_count, returned_type,
};

// "Call: arguments have the callee's inherited types."
fn arguments_typed(words: &[u16], pile: &mut [u64], slots: Slots, k: u16, r: u16) -> bool
    requires { CheckedKind words.now (length pile.old) k Call × (r ≡ node_word words.now k 1) }
    ensures { result ≡ arguments_typed words.now (types_in slots) k r }
{
    for i in 0..inherited_count(words, r) {
        let argument = node_word(words, k, 2 + i);
        let t = ValueType::try_from(inherited_type(words, r, i)).unwrap();
        if !has_type(words, pile, slots, argument, t) {
            return false;
        }
    }
    true
}

// "receiving slots are updated left to right with its returned types"
fn all_received(words: &[u16], slots: Slots, k: u16, r: u16) -> Option<Slots>
    requires { CheckedRule words.now r }
    ensures { told result ≡ received_all words.now (types_in slots) k r }
{
    let mut left = slots;
    for i in 0..returned_count(words, r) {
        let receiving = node_word(words, k, 6 + i);
        let t = ValueType::try_from(returned_type(words, r, i)).unwrap();
        left = left.assigned(receiving, t)?;
    }
    Some(left)
}

// What a call leaves.
fn called(words: &[u16], pile: &mut [u64], slots: Slots, k: u16) -> Option<Slots>
    requires { CheckedKind words.now (length pile.old) k Call }
    ensures { told result ≡ type_of (grammar_of words.now) (types_in slots) (parsing_at words.now k) }
{
    let r = node_word(words, k, 1);
    if !arguments_typed(words, pile, slots, k, r) {
        return None;
    }
    all_received(words, slots, k, r)
}

// "Update: an unset slot takes the type; a set one must have it already." An expression without a type breaks the rule.
fn update_leaves(words: &[u16], pile: &mut [u64], slots: Slots, k: u16) -> Option<Slots>
    requires { CheckedKind words.now (length pile.old) k Update }
    ensures { told result ≡ type_of (grammar_of words.now) (types_in slots) (parsing_at words.now k) }
{
    let s = node_word(words, k, 1);
    let e = node_word(words, k, 2);
    let t = expression_type(words, pile, slots, e)?;
    slots.assigned(s, t)
}

// "Constraint: Bool."
fn constraint_leaves(words: &[u16], pile: &mut [u64], slots: Slots, k: u16) -> Option<Slots>
    requires { CheckedKind words.now (length pile.old) k Constraint }
    ensures { told result ≡ type_of (grammar_of words.now) (types_in slots) (parsing_at words.now k) }
{
    let e = node_word(words, k, 1);
    if has_type(words, pile, slots, e, ValueType::Bool) {
        Some(slots)
    } else {
        None
    }
}

// What a node without parsing parts leaves. A node that is no parsing node leaves all as it is; no table that passes the check has one here.
fn leaf(words: &[u16], pile: &mut [u64], slots: Slots, kind: Kind, k: u16) -> Option<Slots>
    requires { CheckedKind words.now (length pile.old) k kind × (has_parts kind ≡ false) }
    ensures { told result ≡ type_of (grammar_of words.now) (types_in slots) (parsing_at words.now k) }
{
    match kind {
        Kind::Call => called(words, pile, slots, k),
        Kind::Update => update_leaves(words, pile, slots, k),
        Kind::Constraint => constraint_leaves(words, pile, slots, k),
        _ => Some(slots),
    }
}

// Sequence, choice, repeat and not; bind.
#[tactic(auto, unfolding(crate::specs::Walk::has_parts))]
fn has_parts(kind: Kind) -> bool
    ensures { result ≡ has_parts kind }
{
    matches!(
        kind,
        Kind::Sequence | Kind::Choice | Kind::Repeat | Kind::Not | Kind::Bind
    )
}

// What a node at work does with the slots that its part leaves.
#[derive(Clone, Copy)]
pub enum Work {
    // A sequence: "the second part starts from what the first left".
    Then(u16),
    // A choice: "both parts pass from the same start", which it keeps for the second.
    Other(u16, Slots),
    // A repeat, a not, and a choice at its second part: the slots are as they were kept.
    Same(Slots),
    // A bind, with its slot: "judged after its part; the slot is then unset and becomes Text, or is Text already".
    Bind(u16),
}

// A node at work as one number: what it keeps; a tag, which tells the work; and a part that waits.
// (A number, since 1,024 places for enums with slots would take 16 KB of the stack, which is to stay under 16 KB in all.)
fn at_work(kept: u32, tag: u64, part: u16) -> u64
    requires { (tag < 4) × (part < 4096) }
    ensures { result ≡ at_work kept tag part }
{
    u64::from(kept) * 65536 + tag * 4096 + u64::from(part)
}

impl Work {
    fn packed(self) -> u64
        requires { part_in self < 4096 }
        ensures { result ≡ packed self }
    {
        match self {
            Work::Then(part) => at_work(0, 0, part),
            Work::Other(part, start) => at_work(start.types, 1, part),
            Work::Same(start) => at_work(start.types, 2, 0),
            Work::Bind(s) => at_work(u32::from(s), 3, 0),
        }
    }

    fn unpacked(f: u64) -> Work
        requires { kept_of f < 2 ^ 32 }
        ensures { result ≡ unpacked f }
    {
        let kept = (f / 65536) as u32;
        let part = (f % 4096) as u16;
        match f / 4096 % 16 {
            0 => Work::Then(part),
            1 => Work::Other(part, Slots { types: kept }),
            2 => Work::Same(Slots { types: kept }),
            _ => Work::Bind((kept % 65536) as u16),
        }
    }
}

// How a node goes to work, from the slots it starts from and its first two fields.
#[tactic(auto, unfolding(crate::specs::Walk::work_of))]
fn work_of(kind: Kind, slots: Slots, a: u16, b: u16) -> Work
    ensures { result ≡ work_of kind slots a b }
{
    match kind {
        Kind::Sequence => Work::Then(b),
        Kind::Choice => Work::Other(b, slots),
        Kind::Bind => Work::Bind(a),
        _ => Work::Same(slots),
    }
}

// The part that is due first: a bind has its slot before its part.
#[tactic(auto, unfolding(crate::specs::Walk::first_part))]
fn first_part(kind: Kind, a: u16, b: u16) -> u16
    ensures { result ≡ first_part kind a b }
{
    match kind {
        Kind::Bind => b,
        _ => a,
    }
}

// "Repeat, not: the part leaves the slots as at its start." So do both parts of a choice "leave the same slots".
fn unchanged(kept: Slots, slots: Slots) -> Option<Slots>
    ensures { told result ≡ provided (same (types_in kept) (types_in slots)) (some (types_in kept)) }
{
    if kept.same(slots) { Some(kept) } else { None }
}

// What a walk over a rule's body has come to.
#[derive(Clone, Copy)]
pub enum Step {
    // A node is due, from these slots.
    Due(u16, Slots),
    // These slots were found; none where the rule is broken.
    Found(Option<Slots>),
}

// The walk: its step, and how many nodes are at work.
#[derive(Clone, Copy)]
pub struct Walk {
    pub step: Step,
    pub top: usize,
}

// Node k is due: one with parsing parts goes to work, and its first part is due.
fn enter(words: &[u16], pile: &mut [u64], k: u16, slots: Slots, top: usize) -> Walk
    requires { Walks words.now pile.old (node_due k slots top) }
    ensures { WalkedOn words.now pile.old (node_due k slots top) pile.new result }
{
    let kind = Kind::from(kind_at(words, k));
    if !has_parts(kind) {
        let left = leaf(words, &mut pile[top..], slots, kind, k);
        return Walk {
            step: Step::Found(left),
            top,
        };
    }
    let a = node_word(words, k, 1);
    let b = node_word(words, k, 2);
    pile[top] = work_of(kind, slots, a, b).packed();
    Walk {
        step: Step::Due(first_part(kind, a, b), slots),
        top: top + 1,
    }
}

// Slots were found, and go to the topmost node at work. (`words` is there for the contract alone.)
fn resume(words: &[u16], pile: &mut [u64], slots: Slots, top: usize) -> Walk
    requires { Walks words.now pile.old (slots_found (Some slots) top) × (0 < top) }
    ensures { WalkedOn words.now pile.old (slots_found (Some slots) top) pile.new result }
{
    let last = top - 1;
    match Work::unpacked(pile[last]) {
        Work::Then(part) => Walk {
            step: Step::Due(part, slots),
            top: last,
        },
        Work::Other(part, start) => {
            pile[last] = Work::Same(slots).packed();
            Walk {
                step: Step::Due(part, start),
                top,
            }
        }
        Work::Same(start) => Walk {
            step: Step::Found(unchanged(start, slots)),
            top: last,
        },
        Work::Bind(s) => Walk {
            step: Step::Found(slots.assigned(s, ValueType::Text)),
            top: last,
        },
    }
}

// What node k leaves.
pub(crate) fn leaves(words: &[u16], pile: &mut [u64], slots: Slots, k: u16) -> Option<Slots>
    requires { CheckedNode words.now (length pile.old) k }
    ensures { told result ≡ type_of (grammar_of words.now) (types_in slots) (parsing_at words.now k) }
{
    let mut walk = Walk {
        step: Step::Due(k, slots),
        top: 0,
    };
    loop {
        let top = walk.top;
        match walk.step {
            Step::Due(node, start) => walk = enter(words, pile, node, start, top),
            Step::Found(left) => {
                if top == 0 {
                    return left;
                }
                walk = resume(words, pile, left?, top);
            }
        }
    }
}
