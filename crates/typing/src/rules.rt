// The type rules for whole rules.
ghost use Rattle.std.specs.Prelude.{◌≡◌, ◌+◌, ◌<◌, ◌≤◌, length};
ghost use Rattle.grammar.specs.Words.{node_count};
ghost use Rattle.grammar.specs.Tree.{grammar_of, rule_of};
ghost use Rattle.grammar.specs.Types.{start_env, typed_rule};
ghost use Rattle.grammar.specs.Answer.{type_rules};
ghost use Rattle.typing.specs.Checked.{Checked, CheckedRule};
ghost use Rattle.typing.specs.Places.{inherited_types, returned_typed};
ghost use Rattle.typing.specs.Slots.{types_in};

use crate::expressions::has_type;
use crate::parsing::leaves;
use crate::slots::Slots;
use crate::value_type::ValueType;
use grammar::Refusal;
use table::records::{
    body, inherited_count, inherited_type, returned_count, returned_node, returned_type, rule_count,
};

// "A rule starts with its inherited slots set, others unset."
fn start_slots(words: &[u16], r: u16) -> Slots
    requires { CheckedRule words.now r }
    ensures { types_in result ≡ start_env (inherited_types words.now r) }
{
    let mut slots = Slots::unset();
    for i in 0..inherited_count(words, r) {
        let t = ValueType::try_from(inherited_type(words, r, i)).unwrap();
        slots = slots.with(i, t);
    }
    slots
}

// "after the body each returned node has its declared type"
fn returned_typed(words: &[u16], pile: &mut [u64], slots: Slots, r: u16) -> bool
    requires { CheckedRule words.now r × (node_count words.now ≤ length pile.old) }
    ensures { result ≡ returned_typed words.now (types_in slots) r }
{
    for i in 0..returned_count(words, r) {
        let node = returned_node(words, r, i);
        let t = ValueType::try_from(returned_type(words, r, i)).unwrap();
        if !has_type(words, pile, slots, node, t) {
            return false;
        }
    }
    true
}

// Rule r keeps the type rules.
fn rule_typed(words: &[u16], pile: &mut [u64], r: u16) -> bool
    requires { CheckedRule words.now r × (node_count words.now ≤ length pile.old) }
    ensures { result ≡ typed_rule (grammar_of words.now) (rule_of (grammar_of words.now) r) }
{
    let start = start_slots(words, r);
    let node = body(words, r);
    match leaves(words, pile, start, node) {
        Some(left) => returned_typed(words, pile, left, r),
        None => false,
    }
}

// "a rule fails the type rules": "smallest such rule"
fn first_untyped(words: &[u16], pile: &mut [u64]) -> Result<(), Refusal>
    requires { Checked words.now × (node_count words.now ≤ length pile.old) }
    ensures { result ≡ type_rules words.now }
{
    for r in 0..rule_count(words) {
        if !rule_typed(words, pile, r) {
            return Err(Refusal::Untyped(r));
        }
    }
    Ok(())
}

// The pile of all walks is made once: 1,024 places, as many as a table may have nodes.
pub(crate) fn typed_rules(words: &[u16]) -> Result<(), Refusal>
    requires { Checked words.now }
    ensures { result ≡ type_rules words.now }
{
    let mut pile = [0u64; 1024];
    first_untyped(words, &mut pile)
}
