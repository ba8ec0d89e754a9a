// Values in a lent area of words: two words a slot, a tag and a payload.
ghost use Rattle.std.specs.Prelude.{◌≡◌, set};
ghost use Rattle.values.specs.Slots.{tag_of, payload_of, text_of, value_of, slot_at, with_slot};

use crate::words::{integer_of, word_of};
use grammar::{Span, Value};

pub fn tag_of(value: Value) -> u32
    ensures { result ≡ tag_of value }
{
    match value {
        Value::Absent => 0,
        Value::Bool(_) => 1,
        Value::Integer(_) => 2,
        Value::Text(s) => if s.literal { 4 } else { 3 },
    }
}

pub fn payload_of(value: Value) -> u32
    ensures { result ≡ payload_of value }
{
    match value {
        Value::Absent => 0,
        Value::Bool(b) => u32::from(b),
        Value::Integer(z) => word_of(z),
        Value::Text(s) => u32::from(s.start) * 65536 + u32::from(s.length),
    }
}

fn text_of(literal: bool, payload: u32) -> Value
    ensures { result ≡ text_of literal payload }
{
    Value::Text(Span {
        literal,
        start: (payload / 65536) as u16,
        length: (payload % 65536) as u16,
    })
}

pub fn value_of(tag: u32, payload: u32) -> Value
    ensures { result ≡ value_of tag payload }
{
    match tag {
        1 => Value::Bool(payload == 1),
        2 => Value::Integer(integer_of(payload)),
        3 => text_of(false, payload),
        4 => text_of(true, payload),
        _ => Value::Absent,
    }
}

// Past the last slot there is none.
pub fn read_slot(slots: &[u32], s: u16) -> Value
    ensures { result ≡ slot_at slots.now s }
{
    let at = 2 * usize::from(s);
    match slots.get(at..at + 2) {
        Some([tag, payload]) => value_of(*tag, *payload),
        _ => Value::Absent,
    }
}

// Past the end nothing is put. Not by `get_mut` (iii): its contract doesn't tell what the slice ends as.
pub fn put<T: Copy>(items: &mut [T], at: usize, item: T)
    ensures { items.new ≡ set items.old at item }
{
    if at < items.len() {
        items[at] = item;
    }
}

// A word past the end isn't written.
pub fn write_word(words: &mut [u32], at: usize, word: u32)
    ensures { words.new ≡ set words.old at word }
{
    put(words, at, word);
}

pub fn write_slot(slots: &mut [u32], s: u16, value: Value)
    ensures { slots.new ≡ with_slot slots.old s value }
{
    let at = 2 * usize::from(s);
    write_word(slots, at, tag_of(value));
    write_word(slots, at + 1, payload_of(value));
}
