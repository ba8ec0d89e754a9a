// The table check: SIZE, FIELD, USE, START (document 01, 'Words of a table' and 'Numbers that come back').
#![tactic(auto)]

ghost use Rattle.std.specs.Prelude.{◌≡◌};
ghost use Rattle.grammar.specs.Form.{table_check};

use grammar::Refusal;
use table::records::{inherited_count, node_count};
use table::sizes::size_ok;

mod fields;
mod sorts;
mod uses;

use fields::first_bad;
use uses::first_other;

// "Checks go 1, 2, 3, 4".
pub fn check(words: &[u16], literals: &[u8]) -> Result<(), Refusal>
    ensures { result ≡ table_check words.now literals.now }
{
    if !size_ok(words, literals.len()) {
        return Err(Refusal::Size);
    }
    let mut counts: [u16; 1024] = [0u16; 1024];
    if let Some(bad) = first_bad(words, &mut counts) {
        return Err(Refusal::Field(bad as u16));
    }
    if let Some(node) = first_other(&counts, node_count(words)) {
        return Err(Refusal::Use(node));
    }
    if 0 < inherited_count(words, 0) {
        return Err(Refusal::Start);
    }
    Ok(())
}
