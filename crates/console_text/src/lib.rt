// The console on slices (document 01, "Listing and console"): its input in, its lines out. The program `console` reads and writes around it.
#![tactic(auto)]

ghost use Rattle.std.specs.Prelude.{Some, ◌≡◌, [], ◌≤◌, length};
ghost use Rattle.grammar.specs.Answer.{answer, work_after};
ghost use Rattle.text.specs.Stored.{Wrote};
ghost use Rattle.console_text.specs.Printed.{answer_lines};
ghost use Rattle.console_text.specs.Console.{longest_input, line_record};
ghost use Rattle.console_text.specs.Lent.{Roomy, lent, enough, responded, respond};

mod lines;
mod request;

use grammar::{Answer, Mode, Value};

// What the slices have room for, for every input: specs/Lent.antt says why so much.
fn lent_enough(message: usize, words: usize, literals: usize, work: usize, output: usize) -> bool
    ensures { result ≡ enough message words literals work output }
{
    32768 <= message && 11203 <= words && 4096 <= literals && 9760 <= work && 262253 <= output
}

fn print_run<'a>(
    mode: Mode,
    budget: u32,
    words: &[u16],
    literals: &'a [u8],
    message: &'a [u8],
    work: &mut [u32],
    output: &mut [u8],
) -> usize
    ensures prints { Wrote output.old 0 (answer_lines message.now literals.now (answer mode words.now literals.now message.now budget (length work.old))) result output.new }
    ensures leaves { work.new ≡ work_after mode words.now literals.now message.now work.old }
{
    let answer = runs::run(mode, words, literals, message, budget, work);
    lines::put_answer(output, 0, message, literals, answer)
}

// LINE: "Consumed and values are zero or absent unless DONE."
fn print_line(output: &mut [u8], line: u32) -> usize
    ensures { Wrote output.old 0 (answer_lines [] [] (line_record line)) result output.new }
{
    let answer = Answer {
        number: 20,
        place: line,
        consumed: 0,
        visits: 0,
        values: [Value::Absent; 4],
    };
    lines::put_answer(output, 0, b"", b"", answer)
}

// Every answer but INPUT.
fn answer_lines(
    input: &[u8],
    message: &mut [u8],
    words: &mut [u16],
    literals: &mut [u8],
    work: &mut [u32],
    output: &mut [u8],
) -> usize
    requires input_len_bound { length input.now ≤ longest_input }
    requires roomy { Roomy (length message.old) (length words.old) (length literals.old) (length work.old) (length output.old) }
    ensures { responded (Some result) (lent message.new words.new literals.new work.new output.new) ≡ respond input.now (lent message.old words.old literals.old work.old output.old) }
{
    match request::read_request(input, message, words, literals) {
        Err(line) => print_line(output, line),
        Ok(asked) => print_run(
            asked.mode,
            asked.budget,
            &words[..asked.table.words],
            &literals[..asked.table.literals],
            &message[..asked.message],
            work,
            output,
        ),
    }
}

// The console's answer to an input, in the slices that the caller lends: the text to be written stands in the output from its start on, and its length is told; or a lent
// slice is too short. INPUT wants ten bytes of the output and looks at no other slice; every other answer wants slices that have room for every input.
pub fn respond(
    input: &[u8],
    message: &mut [u8],
    words: &mut [u16],
    literals: &mut [u8],
    work: &mut [u32],
    output: &mut [u8],
) -> Option<usize>
    ensures { responded result (lent message.new words.new literals.new work.new output.new) ≡ respond input.now (lent message.old words.old literals.old work.old output.old) }
{
    // no text that is printed is shorter than INPUT's line
    if output.len() < 10 {
        return None;
    }
    // "INPUT comes before all else and prints `answer=23` alone"
    if 65536 < input.len() {
        return Some(text::put_bytes(output, 0, b"answer=23\n"));
    }
    if !lent_enough(
        message.len(),
        words.len(),
        literals.len(),
        work.len(),
        output.len(),
    ) {
        return None;
    }
    Some(answer_lines(input, message, words, literals, work, output))
}
