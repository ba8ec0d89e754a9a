// The listing of a table (document 01, "Listing and console"): written into a lent slice, and read off a text.
// Writer and reader go over their text twice with the same functions: the first time with an empty slice, which measures or judges and stores nothing.
#![tactic(auto)]

ghost use Rattle.std.specs.Prelude.{◌≡◌};
ghost use Rattle.listing.specs.Writing.{write, written};
ghost use Rattle.listing.specs.Reading.{read_from, read, filled};

mod reader;
mod records;
mod writer;

use crate::records::{NODES, RULES};

// What the writer refuses.
#[derive(Clone, Copy)]
pub enum Unwritten {
    Size,
    Out,
}

// What the reader refuses; LINE with the line's number.
#[derive(Clone, Copy)]
pub enum Unread {
    Line(u32),
    Room,
}

// "success tells the lengths": how many words and literals the reader filled.
#[derive(Clone, Copy)]
pub struct Lengths {
    pub words: usize,
    pub literals: usize,
}

// Writes the listing of a table from the slice's start on; how many bytes.
pub fn write(words: &[u16], literals: &[u8], text: &mut [u8]) -> Result<usize, Unwritten>
    ensures { written result text.new ≡ write words.now literals.now text.old }
{
    if !table::sizes::size_ok(words, literals.len()) {
        return Err(Unwritten::Size);
    }
    let measuring = 0;
    let length = writer::put_listing(&mut text[..measuring], 0, words, literals);
    if text.len() < length {
        return Err(Unwritten::Out);
    }
    writer::put_listing(text, 0, words, literals);
    Ok(length)
}

// Reads a listing that stands in a text from a place on, to the text's end; `first` is the number of its first line. Fills just the words and the
// literals of its table, or nothing.
pub fn read_from(
    text: &[u8],
    at: usize,
    first: u16,
    words: &mut [u16],
    literals: &mut [u8],
) -> Result<Lengths, Unread>
    ensures { filled result words.new literals.new ≡ read_from text.now at first words.old literals.old }
{
    let judging = 0;
    let number = u32::from(first);
    let head = reader::read_head(text, at, number, &mut literals[..judging]).map_err(Unread::Line)?;
    // "ROOM is judged after line 3"
    let size = 3 + RULES.width * head.rules as usize + NODES.width * head.nodes as usize;
    if words.len() < size || literals.len() < head.literals {
        return Err(Unread::Room);
    }
    reader::read_body(text, head, number + 3, &mut words[..judging], 3).map_err(Unread::Line)?;
    // The second time around both find what they found before.
    let _ = reader::read_head(text, at, number, literals);
    let _ = reader::fill_words(text, head, number + 3, words);
    Ok(Lengths {
        words: size,
        literals: head.literals,
    })
}

// Reads a text that is a listing.
pub fn read(text: &[u8], words: &mut [u16], literals: &mut [u8]) -> Result<Lengths, Unread>
    ensures { filled result words.new literals.new ≡ read text.now words.old literals.old }
{
    read_from(text, 0, 1, words, literals)
}
