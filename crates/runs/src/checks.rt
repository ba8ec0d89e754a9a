// The checks before a run, in their order.
ghost use Rattle.std.specs.Prelude.{◌≡◌, leb, length};
ghost use Rattle.grammar.specs.declared.Refusal.TheVariants.{Long, Work};
ghost use Rattle.grammar.specs.Form.{followed_by, unless_ok};
ghost use Rattle.grammar.specs.Answer.{check, check_for, work_words};

use grammar::{Inputs, Mode, Refusal};

// "message over 65,535 bytes", then "work area under W words".
fn limits(message: usize, work: usize) -> Result<(), Refusal>
    ensures { result ≡ followed_by (unless_ok (leb message 65535) Long) (unless_ok (leb work_words work) Work) }
{
    if 65535 < message {
        return Err(Refusal::Long);
    }
    if work < 9760 {
        return Err(Refusal::Work);
    }
    Ok(())
}

// "then 5 (type check and display run only)"
fn table_checked(mode: Mode, words: &[u16], literals: &[u8]) -> Result<(), Refusal>
    ensures { result ≡ check_for mode words.now literals.now }
{
    match mode {
        Mode::Bench => form::check(words, literals),
        Mode::Display => typing::type_check(words, literals),
    }
}

// "Checks go 1, 2, 3, 4, then 5 .., 6, 7, then the run"
pub(crate) fn checked<'a>(mode: Mode, inputs: Inputs<'a>, work: usize) -> Result<(), Refusal>
    ensures { result ≡ check mode inputs.entry.words.now inputs.entry.literals.now (length inputs.entry.message.now) work }
{
    table_checked(mode, inputs.words, inputs.literals)?;
    limits(inputs.message.len(), work)
}
