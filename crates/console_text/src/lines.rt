// The console's lines for an answer record, put into a slice from a place on.
ghost use Rattle.std.specs.Prelude.{◌≡◌};
ghost use Rattle.text.specs.Stored.{Wrote};
ghost use Rattle.grammar.specs.declared.Value.TheVariants as Val;
ghost use Rattle.console_text.specs.Printed.{number_line, bool_text, integer_text, text_text, value_text, value_line, number_lines, value_lines, answer_lines};

use grammar::{Answer, Value};

// "each line ended by byte 10"
fn put_number_line(output: &mut [u8], at: usize, key: &[u8], n: u32) -> usize
    ensures { Wrote output.old at (number_line key.now n) result output.new }
{
    let a = text::put_bytes(output, at, key);
    let b = text::put_decimal(output, a, n);
    text::put(output, b, 10)
}

fn put_bool(output: &mut [u8], at: usize, truth: bool) -> usize
    ensures { Wrote output.old at (bool_text truth) result output.new }
{
    if truth {
        return text::put_bytes(output, at, b"1 1");
    }
    text::put_bytes(output, at, b"1 0")
}

fn put_integer(output: &mut [u8], at: usize, n: i32) -> usize
    ensures { Wrote output.old at (integer_text n) result output.new }
{
    let next = text::put_bytes(output, at, b"2 ");
    text::put_signed(output, next, n)
}

// "hex (nothing after `3` if empty)"
fn put_text(output: &mut [u8], at: usize, bytes: &[u8]) -> usize
    ensures { Wrote output.old at (text_text bytes.now) result output.new }
{
    if bytes.len() == 0 {
        return text::put(output, at, 51);
    }
    let next = text::put_bytes(output, at, b"3 ");
    text::put_hex(output, next, bytes)
}

// "A value is its type, then 0 or 1, a decimal, or hex (nothing after `3` if empty). 0 is absent."
fn put_value<'a>(
    output: &mut [u8],
    at: usize,
    message: &'a [u8],
    literals: &'a [u8],
    value: Value,
) -> usize
    ensures { Wrote output.old at (value_text message.now literals.now value) result output.new }
{
    match value {
        Value::Absent => text::put(output, at, 48),
        Value::Bool(truth) => put_bool(output, at, truth),
        Value::Integer(n) => put_integer(output, at, n),
        Value::Text(_) => put_text(
            output,
            at,
            values::texts::text_bytes(message, literals, value),
        ),
    }
}

fn put_value_line<'a>(
    output: &mut [u8],
    at: usize,
    message: &'a [u8],
    literals: &'a [u8],
    value: Value,
) -> usize
    ensures { Wrote output.old at (value_line message.now literals.now value) result output.new }
{
    let a = text::put_bytes(output, at, b"value=");
    let b = put_value(output, a, message, literals, value);
    text::put(output, b, 10)
}

fn put_numbers(output: &mut [u8], at: usize, answer: Answer) -> usize
    ensures { Wrote output.old at (number_lines answer) result output.new }
{
    let a = put_number_line(output, at, b"answer=", answer.number);
    let b = put_number_line(output, a, b"place=", answer.place);
    let c = put_number_line(output, b, b"consumed=", answer.consumed);
    put_number_line(output, c, b"visits=", answer.visits)
}

fn put_values<'a>(
    output: &mut [u8],
    at: usize,
    message: &'a [u8],
    literals: &'a [u8],
    answer: Answer,
) -> usize
    ensures { Wrote output.old at (value_lines message.now literals.now answer) result output.new }
{
    let mut next = at;
    for value in answer.values {
        next = put_value_line(output, next, message, literals, value);
    }
    next
}

// "every other answer prints these eight lines"
pub(crate) fn put_answer<'a>(
    output: &mut [u8],
    at: usize,
    message: &'a [u8],
    literals: &'a [u8],
    answer: Answer,
) -> usize
    ensures { Wrote output.old at (answer_lines message.now literals.now answer) result output.new }
{
    let next = put_numbers(output, at, answer);
    put_values(output, next, message, literals, answer)
}
