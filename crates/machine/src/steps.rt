// One step, and the steps until the run rests.
ghost use Rattle.std.specs.Prelude.{◌≡◌, true};
ghost use Rattle.stages.specs.Stages.{with};
ghost use Rattle.machine.specs.Step.{step_of};
ghost use Rattle.machine.specs.Drive.{goes_on, driven};
ghost use Rattle.machine.specs.Strides.{Strode};

use crate::strides::{both_visits, terminal_first, two_left};
use grammar::Inputs;
use returns::{back_failed, back_matched};
use stages::{Run, Stage};
use visits::enter;

// One visit, or one return. A run at rest stays as it is.
pub fn step(inputs: Inputs, budget: u32, run: Run, work: &mut [u32]) -> Run
    ensures { with result work.new ≡ step_of inputs.entry.words.now inputs.entry.literals.now inputs.entry.message.now budget run work.old }
{
    match run.stage {
        Stage::Enter(k) => enter(inputs, budget, k, run, work),
        Stage::Matched => back_matched(inputs, run, work),
        Stage::Failed => back_failed(inputs, run, work),
        _ => run,
    }
}

// A run goes on where a visit is due and some budget is left, and where there is a frame to return to.
fn goes_on(budget: u32, run: Run) -> bool
    ensures { result ≡ goes_on budget run }
{
    match run.stage {
        Stage::Enter(_) => run.visits < budget,
        Stage::Matched | Stage::Failed => 0 < run.frames,
        _ => false,
    }
}

// One step of a run that goes on, or three at once. In the library nothing else calls `step` or `both_visits`, so that the compiler puts a whole run into one loop.
fn stride(inputs: Inputs, budget: u32, run: Run, work: &mut [u32]) -> Run
    requires { goes_on budget run ≡ true }
    ensures { Strode inputs.entry.words.now inputs.entry.literals.now inputs.entry.message.now budget (with run work.old) (with result work.new) }
{
    // named, so that the node's number is known to be a 16-bit one
    let stage = run.stage;
    match stage {
        Stage::Enter(k) => {
            if terminal_first(inputs.words, k) && two_left(budget, work.len(), run) {
                return both_visits(inputs, k, run, work);
            }
            step(inputs, budget, run, work)
        }
        _ => step(inputs, budget, run, work),
    }
}

// Steps until the run rests.
pub fn drive(inputs: Inputs, budget: u32, run: Run, work: &mut [u32]) -> Run
    ensures { with result work.new ≡ driven inputs.entry.words.now inputs.entry.literals.now inputs.entry.message.now budget (with run work.old) }
{
    let mut now = run;
    while goes_on(budget, now) {
        now = stride(inputs, budget, now, work);
    }
    now
}
