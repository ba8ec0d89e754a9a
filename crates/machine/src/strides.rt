// Several steps at once, where they come to the same: of the sequences and choices of a message grammar nearly half begin with a terminal.
ghost use Rattle.std.specs.Prelude.{◌≡◌, ◌<◌};
ghost use Rattle.stages.specs.Stages.{with};
ghost use Rattle.machine.specs.Strides.{terminal_first, two_left, both_visited};

use grammar::Inputs;
use stages::{Run, Stage};
use table::records::{field_in, kind_in, node_place};
use visits::byte_stands;

// Is node k a sequence or a choice whose first part is a terminal? Past the table's end a kind reads 0, and the answer is no.
pub(crate) fn terminal_first(words: &[u16], k: u16) -> bool
    ensures { result ≡ terminal_first words.now k }
{
    let place = node_place(words, k);
    // 3 sequence, 4 choice, 2 terminal: by number (i), as `terminal_first` of specs/Strides has them
    match kind_in(words, place) {
        3 | 4 => kind_in(words, node_place(words, field_in(words, place, 1))) == 2,
        _ => false,
    }
}

// Are two more visits left, one inside the other, in a work area that has all its frames?
pub(crate) fn two_left(budget: u32, room: usize, run: Run) -> bool
    ensures { result ≡ two_left budget room run }
{
    if room < 9760 {
        return false;
    }
    if 255 <= run.frames {
        return false;
    }
    if budget <= run.visits {
        return false;
    }
    1 < budget - run.visits
}

// The visit of node k, such a sequence or choice, that of its first part, and the return from there. A sequence goes on to its second part where
// the first has matched, a choice where it has failed; else they do as their part did. (Every kind but 3 is taken for a choice:
// `terminal_first` comes first.)
pub(crate) fn both_visits(inputs: Inputs, k: u16, run: Run, work: &mut [u32]) -> Run
    requires { (run.frames < 255) × (run.visits < 4294967294) }
    ensures { with result work.new ≡ both_visited inputs.entry.words.now inputs.entry.message.now k run work.old }
{
    let Inputs { words, message, .. } = inputs;
    let Run { at, frames: d, .. } = run;
    let place = node_place(words, k);
    let sequence = kind_in(words, place) == 3;
    let part = node_place(words, field_in(words, place, 1));
    let stands = byte_stands(message, at, field_in(words, part, 1));
    frames::push(work, d, k, at);
    let after = if stands { at + 1 } else { at };
    if stands == sequence {
        frames::second(work, d);
        return Run {
            stage: Stage::Enter(field_in(words, place, 2)),
            at: after,
            frames: d + 1,
            visits: run.visits + 2,
        };
    }
    Run {
        stage: if stands {
            Stage::Matched
        } else {
            Stage::Failed
        },
        at: after,
        frames: d,
        visits: run.visits + 2,
    }
}
