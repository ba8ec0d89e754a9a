// The reader for C and Rust: numbers and slices only; a slice is a pointer and then a length. docs/FIRMWARE.md has a page for firmware engineers.
#![tactic(auto)]

mod boundary;

ghost use Rattle.std.specs.Prelude.{◌≡◌, length};
ghost use Rattle.grammar.specs.declared.Mode.TheVariants.{Bench, Display};
ghost use Rattle.grammar.specs.Form.{table_check};
ghost use Rattle.grammar.specs.Answer.{answer, type_check, work_after};
ghost use Rattle.values.specs.Slots.{value_of};
ghost use Rattle.listing.specs.Reading.{read};
ghost use Rattle.listing.specs.Writing.{write};
ghost use Rattle.exports.specs.Boundary.{part_word, verdict_word, version, with_reading, with_record, with_writing};

use crate::boundary::{part_word, put_reading, put_record, put_writing, verdict_word};

// The version of what is exported here, for whoever links the library to compare with the version of the header that he was compiled with.
#[unsafe(no_mangle)]
pub extern "C" fn styrmflo_version() -> u32
    ensures { result ≡ version }
{
    1
}

// The checks 1 to 4: 65536 times the answer's number, and its place.
#[unsafe(no_mangle)]
pub extern "C" fn styrmflo_check(words: &[u16], literals: &[u8]) -> u32
    ensures { result ≡ verdict_word (table_check words.now literals.now) }
{
    verdict_word(form::check(words, literals))
}

// The checks 1 to 5: 65536 times the answer's number, and its place.
#[unsafe(no_mangle)]
pub extern "C" fn styrmflo_type_check(words: &[u16], literals: &[u8]) -> u32
    ensures { result ≡ verdict_word (type_check words.now literals.now) }
{
    verdict_word(typing::type_check(words, literals))
}

// A bench run; the answer record in the first twelve words of `twelve`.
#[unsafe(no_mangle)]
pub extern "C" fn styrmflo_bench<'a>(
    words: &[u16],
    literals: &'a [u8],
    message: &'a [u8],
    budget: u32,
    work: &mut [u32],
    twelve: &mut [u32],
)
    ensures leaves { work.new ≡ work_after Bench words.now literals.now message.now work.old }
    ensures gives { twelve.new ≡ with_record twelve.old (answer Bench words.now literals.now message.now budget (length work.old)) }
{
    let answer = runs::bench(words, literals, message, budget, work);
    put_record(twelve, answer);
}

// A display run; the answer record in the first twelve words of `twelve`.
#[unsafe(no_mangle)]
pub extern "C" fn styrmflo_display<'a>(
    words: &[u16],
    literals: &'a [u8],
    message: &'a [u8],
    budget: u32,
    work: &mut [u32],
    twelve: &mut [u32],
)
    ensures leaves { work.new ≡ work_after Display words.now literals.now message.now work.old }
    ensures gives { twelve.new ≡ with_record twelve.old (answer Display words.now literals.now message.now budget (length work.old)) }
{
    let answer = runs::display(words, literals, message, budget, work);
    put_record(twelve, answer);
}

// Reads a listing into words and literals; number, line, words and literals in the first four words of `answer`.
#[unsafe(no_mangle)]
pub extern "C" fn styrmflo_read(
    text: &[u8],
    words: &mut [u16],
    literals: &mut [u8],
    answer: &mut [u64],
)
    ensures words { words.new ≡ (read text.now words.old literals.old).words }
    ensures literals { literals.new ≡ (read text.now words.old literals.old).literals }
    ensures tells { answer.new ≡ with_reading answer.old (read text.now words.old literals.old).answer }
{
    let reading = listing::read(text, words, literals);
    put_reading(answer, reading);
}

// Writes a table's listing into a text; number, 0, length and 0 in the first four words of `answer`.
#[unsafe(no_mangle)]
pub extern "C" fn styrmflo_write(
    words: &[u16],
    literals: &[u8],
    text: &mut [u8],
    answer: &mut [u64],
)
    ensures text { text.new ≡ (write words.now literals.now text.old).text }
    ensures tells { answer.new ≡ with_writing answer.old (write words.now literals.now text.old).answer }
{
    let writing = listing::write(words, literals, text);
    put_writing(answer, writing);
}

// Where the bytes of a value stand, which is a tag and a payload as in the answer record: 4294967296 for the literals, 65536 times the start, and the
// length. 0 is an empty part at the start of the message.
#[unsafe(no_mangle)]
pub extern "C" fn styrmflo_text(message: usize, literals: usize, tag: u32, payload: u32) -> u64
    ensures { result ≡ part_word message literals (value_of tag payload) }
{
    part_word(message, literals, values::slots::value_of(tag, payload))
}
