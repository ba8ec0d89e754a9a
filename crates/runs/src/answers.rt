// The answer record.
ghost use Rattle.std.specs.Prelude.{◌≡◌, []};
ghost use Rattle.grammar.specs.Answer.{answered, ending_number, refusal, refusal_number, refusal_place};
ghost use Rattle.stages.specs.Stages.{with};
ghost use Rattle.machine.specs.Drive.{ended_answer, done_answer, concluded};

use grammar::{Answer, Ended, Ending, Inputs, Refusal, Value};
use stages::{Run, Stage};

// "Consumed and values are zero or absent unless DONE."
pub(crate) fn without_values(number: u32, place: u32, visits: u32) -> Answer
    ensures { result ≡ answered number place 0 visits [] }
{
    Answer {
        number: number,
        place: place,
        consumed: 0,
        visits: visits,
        values: [Value::Absent; 4],
    }
}

fn ending_number(why: Ending) -> u32
    ensures { result ≡ ending_number why }
{
    match why {
        Ending::Budget => 9,
        Ending::Deep => 10,
        Ending::Stuck => 11,
        Ending::Fault(_) => 12,
    }
}

// The run has ended at node k.
fn ended(why: Ending, k: u16, run: Run) -> Answer
    ensures { result ≡ ended_answer why k run }
{
    without_values(ending_number(why), k as u32, run.visits)
}

// The start rule's "returned values are the record's".
fn done(returned: Result<[Value; 4], Ended>, run: Run) -> Answer
    ensures { result ≡ done_answer returned run }
{
    match returned {
        Ok(values) => Answer {
            number: 0,
            place: 0,
            consumed: run.at as u32,
            visits: run.visits,
            values,
        },
        Err(end) => ended(end.why, end.node, run),
    }
}

// The answer of a run at rest. Where a visit is due, the budget is spent.
pub(crate) fn conclude<'a>(inputs: Inputs<'a>, run: Run, work: &[u32]) -> Answer
    ensures { result ≡ concluded inputs.entry.words.now inputs.entry.literals.now inputs.entry.message.now (with run work.now) }
{
    match run.stage {
        Stage::Enter(k) => ended(Ending::Budget, k, run),
        Stage::Matched => done(calls::returned_by(inputs, work, 0), run),
        Stage::Failed => without_values(8, 0, run.visits),
        Stage::Deep(k) => ended(Ending::Deep, k, run),
        Stage::Stuck(k) => ended(Ending::Stuck, k, run),
        Stage::Overflow(k) => without_values(12, k as u32, run.visits),
        Stage::ZeroDivisor(k) => without_values(12, k as u32, run.visits),
    }
}

fn number_of(why: Refusal) -> u32
    ensures { result ≡ refusal_number why }
{
    match why {
        Refusal::Size => 1,
        Refusal::Field(_) => 2,
        Refusal::Use(_) => 3,
        Refusal::Start => 4,
        Refusal::Untyped(_) => 5,
        Refusal::Long => 6,
        Refusal::Work => 7,
    }
}

fn place_of(why: Refusal) -> u32
    ensures { result ≡ refusal_place why }
{
    match why {
        Refusal::Field(i) => u32::from(i),
        Refusal::Use(k) => u32::from(k),
        Refusal::Untyped(r) => u32::from(r),
        _ => 0,
    }
}

// "visits are 0 unless the answer is 0 or 8 to 12."
pub(crate) fn refuse(why: Refusal) -> Answer
    ensures { result ≡ refusal why }
{
    without_values(number_of(why), place_of(why), 0)
}
