// Bench and display runs: the checks in document 01's order, the run, the answer record, and the work area cleared.
#![tactic(auto)]

mod answers;
mod checks;
mod whole;

ghost use Rattle.std.specs.Prelude.{◌≡◌, length};
ghost use Rattle.grammar.specs.declared.Mode.TheVariants.{Bench, Display};
ghost use Rattle.grammar.specs.Answer.{answer, work_after};

use crate::answers::refuse;
use crate::checks::checked;
use crate::whole::run_table;
use grammar::{Answer, Inputs, Mode};

// A run of either mode. "A run (0, 8 to 12) leaves the first W words zero and the others untouched. Answers 1 to 7 change no memory." (Here words, literals and message stand apart:
// of a slice in a struct it isn't known that its words are 16-bit numbers.)
pub fn run<'a>(
    mode: Mode,
    words: &[u16],
    literals: &'a [u8],
    message: &'a [u8],
    budget: u32,
    work: &mut [u32],
) -> Answer
    ensures gives { result ≡ answer mode words.now literals.now message.now budget (length work.old) }
    ensures leaves { work.new ≡ work_after mode words.now literals.now message.now work.old }
{
    let inputs = Inputs {
        words,
        literals,
        message,
    };
    match checked(mode, inputs, work.len()) {
        Ok(()) => run_table(inputs, budget, work),
        Err(why) => refuse(why),
    }
}

// A bench run takes any table of sound form.
pub fn bench<'a>(
    words: &[u16],
    literals: &'a [u8],
    message: &'a [u8],
    budget: u32,
    work: &mut [u32],
) -> Answer
    ensures gives { result ≡ answer Bench words.now literals.now message.now budget (length work.old) }
    ensures leaves { work.new ≡ work_after Bench words.now literals.now message.now work.old }
{
    run(Mode::Bench, words, literals, message, budget, work)
}

// A display run takes only a table that passes the type rules: it never gets STUCK.
pub fn display<'a>(
    words: &[u16],
    literals: &'a [u8],
    message: &'a [u8],
    budget: u32,
    work: &mut [u32],
) -> Answer
    ensures gives { result ≡ answer Display words.now literals.now message.now budget (length work.old) }
    ensures leaves { work.new ≡ work_after Display words.now literals.now message.now work.old }
{
    run(Mode::Display, words, literals, message, budget, work)
}
