// What crosses the boundary, as numbers and words.
ghost use Rattle.std.specs.Prelude.{◌≡◌, cond, ◌+◌, ◌*◌, leb};
ghost use Rattle.exports.specs.Boundary.{part_word, verdict_word, with_four, with_reading, with_record, with_writing};

use grammar::{Answer, Refusal, Span, Value};
use listing::{Lengths, Unread, Unwritten};
use values::slots::{put, write_slot};

pub(crate) fn verdict_word(verdict: Result<(), Refusal>) -> u32
    ensures { result ≡ verdict_word verdict }
{
    match verdict {
        Ok(()) => 0,
        Err(why) => match why {
            Refusal::Size => 65536,
            Refusal::Field(i) => 131072 + u32::from(i),
            Refusal::Use(k) => 196608 + u32::from(k),
            Refusal::Start => 262144,
            Refusal::Untyped(r) => 327680 + u32::from(r),
            Refusal::Long => 393216,
            Refusal::Work => 458752,
        },
    }
}

// Four numbers, words of 32 or of 64 bits, from the start on.
fn put_four<T: Copy>(words: &mut [T], a: T, b: T, c: T, d: T)
    ensures { words.new ≡ with_four words.old a b c d }
{
    put(words, 0, a);
    put(words, 1, b);
    put(words, 2, c);
    put(words, 3, d);
}

pub(crate) fn put_record(twelve: &mut [u32], answer: Answer)
    ensures { twelve.new ≡ with_record twelve.old answer }
{
    put_four(
        twelve,
        answer.number,
        answer.place,
        answer.consumed,
        answer.visits,
    );
    let [first, second, third, fourth] = answer.values;
    write_slot(twelve, 2, first);
    write_slot(twelve, 3, second);
    write_slot(twelve, 4, third);
    write_slot(twelve, 5, fourth);
}

pub(crate) fn put_reading(answer: &mut [u64], reading: Result<Lengths, Unread>)
    ensures { answer.new ≡ with_reading answer.old reading }
{
    match reading {
        Ok(lengths) => put_four(answer, 0, 0, lengths.words as u64, lengths.literals as u64),
        Err(why) => match why {
            Unread::Line(n) => put_four(answer, 20, u64::from(n), 0, 0),
            Unread::Room => put_four(answer, 21, 0, 0, 0),
        },
    }
}

pub(crate) fn put_writing(answer: &mut [u64], writing: Result<usize, Unwritten>)
    ensures { answer.new ≡ with_writing answer.old writing }
{
    match writing {
        Ok(length) => put_four(answer, 0, 0, length as u64, 0),
        Err(why) => match why {
            Unwritten::Size => put_four(answer, 1, 0, 0, 0),
            Unwritten::Out => put_four(answer, 22, 0, 0, 0),
        },
    }
}

// Where a part that fits stands: the literals' mark, the start, the length.
fn span_word(span: Span) -> u64
    ensures { result ≡ cond span.literal 4294967296 0 + span.start * 65536 + span.length }
{
    let place = u64::from(span.start) * 65536 + u64::from(span.length);
    if span.literal {
        4294967296 + place
    } else {
        place
    }
}

// "a part that doesn't fit the slice it names": 0
fn fitting_word(span: Span, slice: usize) -> u64
    ensures { result ≡ cond (leb (span.start + span.length) slice) (cond span.literal 4294967296 0 + span.start * 65536 + span.length) 0 }
{
    if usize::from(span.start) + usize::from(span.length) <= slice {
        span_word(span)
    } else {
        0
    }
}

pub(crate) fn part_word(message: usize, literals: usize, value: Value) -> u64
    ensures { result ≡ part_word message literals value }
{
    match value {
        Value::Text(span) => {
            if span.literal {
                fitting_word(span, literals)
            } else {
                fitting_word(span, message)
            }
        }
        _ => 0,
    }
}
