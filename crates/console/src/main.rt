// The console (document 01, "Listing and console"): standard input in, its lines out. What it prints for what it reads is `console_text` of
// console_text/specs, by the promise of `console_text::respond`; that these bytes are what is read and written, no promise can say.
#![tactic(auto)]

ghost use Rattle.std.specs.Prelude.{◌≤◌, length, IfOk};

use std::io::{self, Read, Write};

// Failing to write is no success: it is said on standard error, and the program's end tells it too; `./run` ends with 2 where either is so.
fn complain(rt: &HostRuntime) -> io::Result<()> {
    rt.stderr()
        .write_all(b"console: the answer could not be written\n")
}

// Writes the first bytes of the output; their count is never more than there are.
fn send(rt: &HostRuntime, output: &[u8], count: usize) -> io::Result<()> {
    if count <= output.len() {
        if let Err(e) = rt.stdout().write_all(&output[..count]) {
            complain(rt)?;
            return Err(e);
        }
        return Ok(());
    }
    complain(rt)
}

// Fills the slice from its start, as far as the reader goes: how many bytes came.
fn read_full<R: Read>(reader: &mut R, bytes: &mut [u8]) -> io::Result<usize>
    ensures { IfOk result (λ n. n ≤ length bytes.new) }
{
    let mut n = 0;
    while n < bytes.len() {
        let more = reader.read(&mut bytes[n..])?;
        if more == 0 {
            return Ok(n);
        }
        n += more;
    }
    Ok(n)
}

fn main(rt: HostRuntime) -> io::Result<()> {
    // one byte more than an input may have
    let mut input = [0u8; 65537];
    let mut message = [0u8; 32768];
    let mut words = [0u16; 11203];
    let mut literals = [0u8; 4096];
    let mut work = [0u32; 9760];
    let mut output = [0u8; 262253];
    let n = read_full(&mut rt.stdin(), &mut input)?;
    match console_text::respond(
        &input[..n],
        &mut message,
        &mut words,
        &mut literals,
        &mut work,
        &mut output,
    ) {
        Some(count) => send(&rt, &output, count),
        // never, since the slices are as long as they have to be
        None => complain(&rt),
    }
}
