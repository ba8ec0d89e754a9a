// The work area: the slots in use, and a frame for each composite node at work (specs/Frames.antt says what stands where). Every function answers
// every area and every number.
#![tactic(auto)]

mod words;

ghost use Rattle.std.specs.Prelude.{◌≡◌, ◌+◌, ◌*◌};
ghost use Rattle.grammar.specs.Answer.{work_words};
ghost use Rattle.frames.specs.Frames.{base, cleared, written, unset, node_in, phase_in, from_in, saved, pushed, in_second, restored};

use grammar::Value;
use values::slots::write_word;

// Where frame d starts.
fn start(d: u16) -> usize
    ensures { result ≡ base d }
{
    32 + 38 * usize::from(d)
}

// What is read back is not trusted: a node's number and a position are 16-bit numbers, whatever stands there.
pub fn node_in(work: &[u32], d: u16) -> u16
    ensures { result ≡ node_in work.now d }
{
    (words::get(work, start(d)) % 65536) as u16
}

// The word as it stands (i): `phase_in` of the specs is a number, 0 in the first part and any other in the second.
pub fn phase_in(work: &[u32], d: u16) -> u32
    ensures { result ≡ phase_in work.now d }
{
    words::get(work, start(d) + 1)
}

pub fn from_in(work: &[u32], d: u16) -> u16
    ensures { result ≡ from_in work.now d }
{
    (words::get(work, start(d) + 2) % 65536) as u16
}

// The node of frame d begins, or begins its next round, here and with the slots in use.
pub fn save(work: &mut [u32], d: u16, at: u16)
    ensures { work.new ≡ saved work.old d at }
{
    let first = start(d);
    write_word(work, first + 2, u32::from(at));
    words::copy(work, 0, first + 6);
}

// Frame d for node k.
pub fn push(work: &mut [u32], d: u16, k: u16, at: u16)
    ensures { work.new ≡ pushed work.old d k at }
{
    let first = start(d);
    write_word(work, first, u32::from(k));
    write_word(work, first + 1, 0);
    save(work, d, at);
}

// The node of frame d goes on to its second part.
pub fn second(work: &mut [u32], d: u16)
    ensures { work.new ≡ in_second work.old d }
{
    write_word(work, start(d) + 1, 1);
}

// The slots that the node of frame d began with are in use again.
pub fn restore(work: &mut [u32], d: u16)
    ensures { work.new ≡ restored work.old d }
{
    words::copy(work, start(d) + 6, 0);
}

// "A rule has 16 attribute slots": a number past them writes nothing.
pub fn write_slot(work: &mut [u32], s: u16, value: Value)
    ensures { work.new ≡ written work.old s value }
{
    if s < 16 {
        values::slots::write_slot(work, s, value);
    }
}

// All slots in use become unset.
pub fn clear_slots(work: &mut [u32])
    ensures { work.new ≡ unset work.old }
{
    words::clear(work, 32);
}

// "A run leaves the first W words zero."
pub fn clear_work(work: &mut [u32])
    ensures { work.new ≡ cleared work.old work_words }
{
    words::clear(work, 9760);
}
