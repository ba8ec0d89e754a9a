// The lines that the console reads, in their order.
ghost use Rattle.std.specs.Prelude.{◌≡◌, ◌≤◌, length};
ghost use Rattle.text.specs.Stored.{Took};
ghost use Rattle.console_text.specs.Asked.{mode_line, budget_at, message_at, said};
ghost use Rattle.console_text.specs.Console.{longest_input};
ghost use Rattle.console_text.specs.Lent.{message_bytes, table_words, table_literals, readied, ready};

use grammar::Mode;
use listing::{Lengths, Unread};

// A run that is asked for: its mode and budget, and how many bytes of the message, words and literals were filled.
#[derive(Clone, Copy)]
pub struct Request {
    pub mode: Mode,
    pub budget: u32,
    pub message: usize,
    pub table: Lengths,
}

// "`mode=` (bench or display)", and the place after the line.
fn read_mode(input: &[u8]) -> Option<(Mode, usize)>
    ensures { result ≡ mode_line input.now }
{
    if let Some(p) = text::after_key(input, 0, b"mode=bench\n") {
        return Some((Mode::Bench, p));
    }
    let p = text::after_key(input, 0, b"mode=display\n")?;
    Some((Mode::Display, p))
}

// "Budget is a decimal up to 4294967295, no leading zero"
fn read_budget(input: &[u8], at: usize) -> Option<(u32, usize)>
    ensures { result ≡ budget_at input.now at }
{
    let p = text::after_key(input, at, b"budget=")?;
    text::read_number(input, p, b'\n', 4294967295)
}

// "`message=` (hex)"
fn read_message(input: &[u8], at: usize, message: &mut [u8]) -> Option<(usize, usize)>
    ensures { Took (message_at input.now at) message.old 0 result message.new }
{
    let p = text::after_key(input, at, b"message=")?;
    text::read_hex(input, p, message)
}

// The number of the first line that is wrong, if one is: "LINE counts from the first line", and the listing's first line is the fourth. The message, which an empty
// slice judges, is filled only when the listing was read, so that a wrong line changes nothing.
pub(crate) fn read_request(
    input: &[u8],
    message: &mut [u8],
    words: &mut [u16],
    literals: &mut [u8],
) -> Result<Request, u32>
    requires { (length input.now ≤ longest_input) × ((message_bytes ≤ length message.old) × ((table_words ≤ length words.old) × (table_literals ≤ length literals.old))) }
    ensures { readied result message.new words.new literals.new ≡ ready (said input.now) message.old words.old literals.old }
{
    let (mode, a) = read_mode(input).ok_or(1u32)?;
    let (budget, b) = read_budget(input, a).ok_or(2u32)?;
    let nothing = 0;
    let (bytes, c) = read_message(input, b, &mut message[..nothing]).ok_or(3u32)?;
    match listing::read_from(input, c, 4, words, literals) {
        Ok(table) => {
            let _ = read_message(input, b, message);
            Ok(Request {
                mode,
                budget,
                message: bytes,
                table,
            })
        }
        Err(Unread::Line(n)) => Err(n),
        // never, since the slices have room for every table
        Err(Unread::Room) => Err(6),
    }
}
