// A return to the node of the top frame, whose part has matched or failed. Frame d is the top one.
#![tactic(auto)]

ghost use Rattle.std.specs.Prelude.{◌≡◌};
ghost use Rattle.grammar.specs.Words.{node_at};
ghost use Rattle.grammar.specs.Run.{message_part};
ghost use Rattle.frames.specs.Frames.{phase_in, from_in, saved, restored, written};
ghost use Rattle.stages.specs.declared.Stage.TheVariants as S;
ghost use Rattle.stages.specs.Stages.{with, moved, staged};
ghost use Rattle.returns.specs.Returns.{sequence_matched, choice_failed, given_back, returned, returned_at, matched_in, failed_in, back_matched, back_failed};

use calls::{receive, returned_by};
use grammar::{Ended, Inputs, Span, Value};
use stages::{Run, Stage};
use table::kinds::Kind;
use table::records::{field_in, kind_in, node_place, returned_count};

// A sequence's part matched: on to its second part, or done.
fn sequence_matched(b: u16, d: u16, run: Run, work: &mut [u32]) -> Run
    ensures { with result work.new ≡ sequence_matched (phase_in work.old d) b d run work.old }
{
    if frames::phase_in(work, d) == 0 {
        frames::second(work, d);
        return run.stay(Stage::Enter(b));
    }
    run.move_to(Stage::Matched, run.at, d)
}

// A repeat's part matched: "A round may consume nothing".
fn next_round(a: u16, d: u16, run: Run, work: &mut [u32]) -> Run
    ensures { with result work.new ≡ with (staged run (S.Enter a)) (saved work.old d run.at) }
{
    frames::save(work, d, run.at);
    run.stay(Stage::Enter(a))
}

// A repeat's part failed: it "then stands as after the last full round".
fn repeat_failed(d: u16, run: Run, work: &mut [u32]) -> Run
    ensures { with result work.new ≡ with (moved run S.Matched (from_in work.old d) d) (restored work.old d) }
{
    let from = frames::from_in(work, d);
    frames::restore(work, d);
    run.move_to(Stage::Matched, from, d)
}

// "both arms start from the place and slots the choice began with."
fn choice_failed(b: u16, d: u16, run: Run, work: &mut [u32]) -> Run
    ensures { with result work.new ≡ choice_failed (phase_in work.old d) b d run work.old }
{
    let phase = frames::phase_in(work, d);
    let from = frames::from_in(work, d);
    frames::restore(work, d);
    if phase == 0 {
        frames::second(work, d);
        return run.move_to(Stage::Enter(b), from, run.frames);
    }
    run.move_to(Stage::Failed, run.at, d)
}

// "A failing node gives back the slots it began with."
fn give_back(d: u16, run: Run, work: &mut [u32]) -> Run
    ensures { with result work.new ≡ given_back d run work.old }
{
    frames::restore(work, d);
    run.move_to(Stage::Failed, run.at, d)
}

// The part of the message from one position to another, as a value.
fn message_part(from: u16, to: u16) -> Value
    ensures { result ≡ message_part from to }
{
    Value::Text(Span {
        literal: false,
        start: from,
        length: to.saturating_sub(from),
    })
}

// "Bind consumes what its part consumes."
fn bind_matched(s: u16, d: u16, run: Run, work: &mut [u32]) -> Run
    ensures { with result work.new ≡ with (moved run S.Matched run.at d) (written work.old s (message_part (from_in work.old d) run.at)) }
{
    let from = frames::from_in(work, d);
    frames::write_slot(work, s, message_part(from, run.at));
    run.move_to(Stage::Matched, run.at, d)
}

// The called body has matched: the caller's slots are back, and its receiving slots take what the rule returned.
fn call_matched(
    given: Result<[Value; 4], Ended>,
    count: u16,
    slots: [u16; 4],
    d: u16,
    run: Run,
    work: &mut [u32],
) -> Run
    ensures { with result work.new ≡ returned given count slots d run work.old }
{
    match given {
        Ok(values) => {
            frames::restore(work, d);
            receive(work, count, slots, values);
            run.move_to(Stage::Matched, run.at, d)
        }
        Err(end) => run.stay(Stage::from(end)),
    }
}

// The call whose record lies at a place: "evaluates the returned nodes there, then sets its receiving slots left to right".
fn return_call(inputs: Inputs, place: u32, d: u16, run: Run, work: &mut [u32]) -> Run
    ensures { with result work.new ≡ returned_at inputs.entry.words.now inputs.entry.literals.now inputs.entry.message.now place d run work.old }
{
    let words = inputs.words;
    let q = field_in(words, place, 1);
    let slots = [
        field_in(words, place, 6),
        field_in(words, place, 7),
        field_in(words, place, 8),
        field_in(words, place, 9),
    ];
    let given = returned_by(inputs, work, q);
    call_matched(given, returned_count(words, q), slots, d, run, work)
}

// The part of node k, which is frame d's, has matched: its kind is looked at first, and then only the fields that this kind has. Every other node
// matches as its part did: a choice, and a node without parts, which has no frame.
fn matched_in(inputs: Inputs, k: u16, d: u16, run: Run, work: &mut [u32]) -> Run
    ensures { with result work.new ≡ matched_in inputs.entry.words.now inputs.entry.literals.now inputs.entry.message.now (node_at inputs.entry.words.now k) d run work.old }
{
    let place = node_place(inputs.words, k);
    match Kind::from(kind_in(inputs.words, place)) {
        Kind::Sequence => sequence_matched(field_in(inputs.words, place, 2), d, run, work),
        Kind::Repeat => next_round(field_in(inputs.words, place, 1), d, run, work),
        // "not hands on the slots its part left, matched or failed"
        Kind::Not => run.move_to(Stage::Failed, run.at, d),
        Kind::Call => return_call(inputs, place, d, run, work),
        Kind::Bind => bind_matched(field_in(inputs.words, place, 1), d, run, work),
        _ => run.move_to(Stage::Matched, run.at, d),
    }
}

// The same where the part has failed. Every other node gives back the slots and fails: sequence, call, bind, and a node without parts, which has no frame.
fn failed_in(words: &[u16], k: u16, d: u16, run: Run, work: &mut [u32]) -> Run
    ensures { with result work.new ≡ failed_in (node_at words.now k) d run work.old }
{
    let place = node_place(words, k);
    match Kind::from(kind_in(words, place)) {
        Kind::Choice => choice_failed(field_in(words, place, 2), d, run, work),
        Kind::Repeat => repeat_failed(d, run, work),
        // "Not consumes nothing"
        Kind::Not => run.move_to(Stage::Matched, frames::from_in(work, d), d),
        _ => give_back(d, run, work),
    }
}

// Without a frame the run rests.
pub fn back_matched(inputs: Inputs, run: Run, work: &mut [u32]) -> Run
    ensures { with result work.new ≡ back_matched inputs.entry.words.now inputs.entry.literals.now inputs.entry.message.now run.frames run work.old }
{
    if run.frames == 0 {
        return run;
    }
    let d = run.frames - 1;
    let k = frames::node_in(work, d);
    matched_in(inputs, k, d, run, work)
}

pub fn back_failed(inputs: Inputs, run: Run, work: &mut [u32]) -> Run
    ensures { with result work.new ≡ back_failed inputs.entry.words.now inputs.entry.literals.now inputs.entry.message.now run.frames run work.old }
{
    if run.frames == 0 {
        return run;
    }
    let d = run.frames - 1;
    let k = frames::node_in(work, d);
    failed_in(inputs.words, k, d, run, work)
}
