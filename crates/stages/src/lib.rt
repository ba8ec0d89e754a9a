// A run record by value, and the changes of it that visits and returns share.
#![tactic(auto)]

ghost use Rattle.std.specs.Prelude.{◌≡◌};
ghost use Rattle.stages.specs.Stages.{moved, staged, ended_at};

use grammar::{Ended, Ending, Fault};

// Where a run stands: a visit of a node is due; the node last visited matched, or failed; or the run has ended at a node. A run without budget
// rests where a visit is due. (An Ended in place of the last four is no plainer (iv): it could also say Budget, which no stage is.)
#[derive(Clone, Copy)]
pub enum Stage {
    Enter(u16),
    Matched,
    Failed,
    Deep(u16),
    Stuck(u16),
    Overflow(u16),
    ZeroDivisor(u16),
}

// A run: its stage, its position in the message, the frames in use (the depth of the next visit is one more), the visits made.
#[derive(Clone, Copy)]
pub struct Run {
    pub stage: Stage,
    pub at: u16,
    pub frames: u16,
    pub visits: u32,
}

impl Run {
    // To another stage, at this position and with so many frames.
    pub fn move_to(self, stage: Stage, at: u16, frames: u16) -> Run
        ensures { result ≡ moved self stage at frames }
    {
        Run {
            stage,
            at,
            frames,
            ..self
        }
    }

    // To another stage, where the run is.
    pub fn stay(self, stage: Stage) -> Run
        ensures { result ≡ staged self stage }
    {
        Run { stage, ..self }
    }
}

// "STUCK, FAULT, BUDGET, DEEP end the run at once": the stage at which an expression has ended it.
impl From<Ended> for Stage {
    ghost from_gives = { λ ended stage. stage ≡ ended_at ended.why ended.node };

    fn from(ended: Ended) -> Self {
        let k = ended.node;
        match ended.why {
            Ending::Budget => Stage::Stuck(k),
            Ending::Deep => Stage::Deep(k),
            Ending::Stuck => Stage::Stuck(k),
            Ending::Fault(fault) => match fault {
                Fault::Overflow => Stage::Overflow(k),
                Fault::ZeroDivisor => Stage::ZeroDivisor(k),
            },
        }
    }
}
