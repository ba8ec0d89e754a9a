// The type check (document 01, 'Type rules'): answers 1 to 5, or passed. A table that passes never gets STUCK.
#![tactic(auto)]

mod expressions;
mod parsing;
mod rules;
mod slots;
mod value_type;

ghost use Rattle.std.specs.Prelude.{◌≡◌};
ghost use Rattle.grammar.specs.Answer.{type_check};

use crate::rules::typed_rules;
use grammar::Refusal;

// Checks go 1, 2, 3, 4, then 5.
pub fn type_check(words: &[u16], literals: &[u8]) -> Result<(), Refusal>
    ensures { result ≡ type_check words.now literals.now }
{
    form::check(words, literals)?;
    typed_rules(words)
}
