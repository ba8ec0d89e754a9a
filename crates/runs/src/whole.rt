// A whole run.
ghost use Rattle.std.specs.Prelude.{◌≡◌};
ghost use Rattle.machine.specs.Drive.{recorded, ran};

use crate::answers::conclude;
use grammar::{Answer, Inputs};
use stages::{Run, Stage};
use table::records;

// "The start rule runs in the same way with all slots unset"; "a run leaves the first W words zero".
pub(crate) fn run_table<'a>(inputs: Inputs<'a>, budget: u32, work: &mut [u32]) -> Answer
    ensures { recorded result work.new ≡ ran inputs.entry.words.now inputs.entry.literals.now inputs.entry.message.now budget work.old }
{
    let start = Run {
        stage: Stage::Enter(records::body(inputs.words, 0)),
        at: 0,
        frames: 0,
        visits: 0,
    };
    frames::clear_slots(work);
    let last = machine::steps::drive(inputs, budget, start, work);
    let answer = conclude(inputs, last, work);
    frames::clear_work(work);
    answer
}
