// Expressions over the slots in use, up to four in a row, and what becomes of their values.
#![tactic(auto)]

ghost use Rattle.std.specs.Prelude.{◌≡◌};
ghost use Rattle.calls.specs.Calls.{evaluated_four, returned_by, inherited, received};

use grammar::{Ended, Inputs, Value};
use table::records;

// What the first `count` of four expression nodes give, left to right: their values, past them Absent; or the run ends at once, and nothing is evaluated any more.
pub fn evaluate_four(
    inputs: Inputs,
    work: &[u32],
    count: u16,
    nodes: [u16; 4],
) -> Result<[Value; 4], Ended>
    ensures { result ≡ evaluated_four inputs.entry.words.now inputs.entry.literals.now inputs.entry.message.now count nodes work.now }
{
    let mut values = [Value::Absent; 4];
    for i in 0..usize::from(count).min(4) {
        values[i] = expressions::evaluate(inputs, work, nodes[i])?;
    }
    Ok(values)
}

// What rule q returns, in the slots in use.
pub fn returned_by(inputs: Inputs, work: &[u32], q: u16) -> Result<[Value; 4], Ended>
    ensures { result ≡ returned_by inputs.entry.words.now inputs.entry.literals.now inputs.entry.message.now q work.now }
{
    let words = inputs.words;
    let nodes = [
        records::returned_node(words, q, 0),
        records::returned_node(words, q, 1),
        records::returned_node(words, q, 2),
        records::returned_node(words, q, 3),
    ];
    evaluate_four(inputs, work, records::returned_count(words, q), nodes)
}

// "runs the body in fresh slots": the inherited values in slots 0 to 3, the others unset.
pub fn inherit(work: &mut [u32], values: [Value; 4])
    ensures { work.new ≡ inherited values work.old }
{
    frames::clear_slots(work);
    for (i, value) in values.iter().enumerate() {
        frames::write_slot(work, i as u16, *value);
    }
}

// "then sets its receiving slots left to right."
pub fn receive(work: &mut [u32], count: u16, slots: [u16; 4], values: [Value; 4])
    ensures { work.new ≡ received count slots values work.old }
{
    for (i, value) in values.iter().enumerate() {
        if i < usize::from(count) {
            frames::write_slot(work, slots[i], *value);
        }
    }
}
