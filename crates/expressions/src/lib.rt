// Expressions of a table, evaluated from its words.
#![tactic(auto)]

ghost use Rattle.std.specs.Prelude.{◌≡◌, take, ◌<◌, ◌≤◌};
ghost use Rattle.grammar.specs.Answer.{setting_of};
ghost use Rattle.grammar.specs.Run.{eval};
ghost use Rattle.grammar.specs.Tree.{expr_at, levels_of};
ghost use Rattle.values.specs.Slots.{slots_of};
ghost use Rattle.expressions.specs.Meant.{meant};

mod results;
mod walks;

use grammar::{Ended, Inputs, Value};

// The levels of node k that are looked at.
fn levels_of(k: u16) -> usize
    ensures { (result ≡ levels_of k) × (0 < result) × (result ≤ 1024) }
{
    if k < 1024 { usize::from(k) + 1 } else { 1024 }
}

// What expression node k gives, with the slots in the first 32 words of `slots`: for a table of sound form as document 01 says. A part has a
// smaller number than its node, so node k has at most k + 1 levels, and a table has at most 1,024 nodes. For any other table it answers what the
// words stand for (`expr_at` of the grammar) and ends too.
pub fn evaluate(inputs: Inputs, slots: &[u32], k: u16) -> Result<Value, Ended>
    ensures { meant result ≡ eval (setting_of inputs.entry.words.now inputs.entry.literals.now inputs.entry.message.now) (slots_of (take 32 slots.now)) (expr_at inputs.entry.words.now k) }
{
    results::evaluated(walks::walked(
        inputs.words,
        inputs.literals,
        inputs.message,
        slots,
        levels_of(k),
        k,
    ))
}
