// A visit: the budget first, then the depth, and then what the node says.
#![tactic(auto)]

ghost use Rattle.std.specs.Prelude.{◌≡◌, ◌&&◌, ◌<◌, ◌+◌, ltb};
ghost use Rattle.grammar.specs.Words.{node_at};
ghost use Rattle.grammar.specs.Run.{byte_stands, due};
ghost use Rattle.grammar.specs.Answer.{deepest_visit};
ghost use Rattle.expressions.specs.Meant.{meant};
ghost use Rattle.stages.specs.Stages.{with};
ghost use Rattle.visits.specs.Visits.{visited, consumed, opened, updated, judged, constrained, called, called_at, begun, admitted};

use calls::{evaluate_four, inherit};
use grammar::{Ended, Inputs, Value};
use stages::{Run, Stage};
use table::kinds::Kind;
use table::records::{body, field_in, inherited_count, kind_in, node_place};

// Does the byte stand at a position? Never at 65,535, behind which there is no position: LONG has refused a longer message.
pub fn byte_stands(message: &[u8], at: u16, byte: u16) -> bool
    ensures { result ≡ (byte_stands message.now at byte && ltb at 65535) }
{
    match message.get(usize::from(at)) {
        Some(there) => at < 65535 && u16::from(*there) == byte,
        None => false,
    }
}

// A terminal matches where its byte stands.
fn consume(message: &[u8], run: Run, byte: u16) -> Run
    ensures { result ≡ consumed (byte_stands message.now run.at byte && ltb run.at 65535) run }
{
    if byte_stands(message, run.at, byte) {
        return run.move_to(Stage::Matched, run.at + 1, run.frames);
    }
    run.stay(Stage::Failed)
}

// A frame for node k, and its part is due.
fn open(k: u16, part: u16, run: Run, work: &mut [u32]) -> Run
    requires { run.frames < 256 }
    ensures { with result work.new ≡ opened k part run work.old }
{
    frames::push(work, run.frames, k, run.at);
    run.move_to(Stage::Enter(part), run.at, run.frames + 1)
}

fn update(given: Result<Value, Ended>, s: u16, run: Run, work: &mut [u32]) -> Run
    ensures { with result work.new ≡ updated (meant given) s run work.old }
{
    match given {
        Ok(value) => {
            frames::write_slot(work, s, value);
            run.stay(Stage::Matched)
        }
        Err(end) => run.stay(Stage::from(end)),
    }
}

// "a constraint isn't Bool (the constraint)": the stage after a constraint's value.
fn judge(value: Value, k: u16) -> Stage
    ensures { result ≡ judged value k }
{
    match value {
        Value::Bool(b) => if b { Stage::Matched } else { Stage::Failed },
        _ => Stage::Stuck(k),
    }
}

fn constrain(given: Result<Value, Ended>, k: u16, run: Run) -> Run
    ensures { result ≡ constrained (meant given) k run }
{
    match given {
        Ok(value) => run.stay(judge(value, k)),
        Err(end) => run.stay(Stage::from(end)),
    }
}

// "A call evaluates its arguments, runs the body in fresh slots": node k calls with these values.
fn call(given: Result<[Value; 4], Ended>, body: u16, k: u16, run: Run, work: &mut [u32]) -> Run
    requires { run.frames < 256 }
    ensures { with result work.new ≡ called given body k run work.old }
{
    match given {
        Ok(values) => {
            frames::push(work, run.frames, k, run.at);
            inherit(work, values);
            run.move_to(Stage::Enter(body), run.at, run.frames + 1)
        }
        Err(end) => run.stay(Stage::from(end)),
    }
}

// The call whose record lies at a place.
fn begin_call(inputs: Inputs, place: u32, k: u16, run: Run, work: &mut [u32]) -> Run
    requires { run.frames < 256 }
    ensures { with result work.new ≡ called_at inputs.entry.words.now inputs.entry.literals.now inputs.entry.message.now place k run work.old }
{
    let words = inputs.words;
    let q = field_in(words, place, 1);
    let arguments = [
        field_in(words, place, 2),
        field_in(words, place, 3),
        field_in(words, place, 4),
        field_in(words, place, 5),
    ];
    let given = evaluate_four(inputs, work, inherited_count(words, q), arguments);
    call(given, body(words, q), k, run, work)
}

// Node k is visited: its kind is looked at first, and then only the fields that this kind has. One that is no parsing node does as an empty one.
fn begin(inputs: Inputs, k: u16, run: Run, work: &mut [u32]) -> Run
    requires { run.frames < 256 }
    ensures { with result work.new ≡ begun inputs.entry.words.now inputs.entry.literals.now inputs.entry.message.now (node_at inputs.entry.words.now k) k run work.old }
{
    let words = inputs.words;
    let place = node_place(words, k);
    match Kind::from(kind_in(words, place)) {
        Kind::Terminal => consume(inputs.message, run, field_in(words, place, 1)),
        Kind::Sequence | Kind::Choice | Kind::Repeat | Kind::Not => {
            open(k, field_in(words, place, 1), run, work)
        }
        Kind::Call => begin_call(inputs, place, k, run, work),
        Kind::Bind => open(k, field_in(words, place, 2), run, work),
        Kind::Update => {
            let given = expressions::evaluate(inputs, work, field_in(words, place, 2));
            update(given, field_in(words, place, 1), run, work)
        }
        Kind::Constraint => {
            let given = expressions::evaluate(inputs, work, field_in(words, place, 1));
            constrain(given, k, run)
        }
        _ => run.stay(Stage::Matched),
    }
}

// A visit made is counted.
fn count(run: Run) -> Run
    requires { run.visits < 4294967295 }
    ensures { result ≡ visited run }
{
    Run {
        visits: run.visits + 1,
        ..run
    }
}

// "When a visit is due, the budget (32-bit unsigned) is looked at first, then depth; a visit not made isn't counted."
pub fn enter(inputs: Inputs, budget: u32, k: u16, run: Run, work: &mut [u32]) -> Run
    ensures { with result work.new ≡ admitted inputs.entry.words.now inputs.entry.literals.now inputs.entry.message.now (due budget deepest_visit (run.frames + 1) run.visits) k run work.old }
{
    if budget <= run.visits {
        return run;
    }
    if 256 <= run.frames {
        return run.stay(Stage::Deep(k));
    }
    begin(inputs, k, count(run), work)
}
