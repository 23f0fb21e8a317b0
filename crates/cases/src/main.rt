// Runs a script of public calls from standard input, and prints for each line what its call gave.
//
// A line is the two letters of a call and then its arguments, with one space between any two words. An argument is
// bytes in hex, each alone or with `*` and how often it stands. `/` begins the reading, and `>` the length of the output, which
// holds the byte aa throughout before the call. `p` stands for the program image that the last accepted translation wrote, into
// either form, and `x` for the reading that the last accepted extension wrote. An empty line and a line that begins with `#` are
// printed as they stand; a line that is malformed is named by its number. The first 327,680 bytes of a script are run.
#![tactic(auto)]

use call::Call;
use kept::Kept;
use refusal::Answer;
use std::io::{self, Read, Write};

mod call;
mod kept;
mod print;
mod words;

fn main(rt: HostRuntime) -> io::Result<()> {
    let mut script = [0u8; 327680];
    let read = io::copy(&mut rt.stdin().take(327680), &mut &mut script[..])?;
    let length = script.len().min(read as usize);
    run(&mut io::writer(&rt), &script[..length])
}

// Runs the lines of the script one after the other.
fn run(writer: &mut impl Write, script: &[u8]) -> io::Result<()> {
    let mut kept = Kept::new();
    let lines = script.split_inclusive(|&byte| byte == b'\n');
    for (before, line) in lines.enumerate() {
        let text = line.strip_suffix(b"\n").unwrap_or(line);
        run_line(writer, before + 1, text, &mut kept)?;
    }
    Ok(())
}

// Runs one line, and prints what it gave.
fn run_line(
    writer: &mut impl Write,
    number: usize,
    text: &[u8],
    kept: &mut Kept,
) -> io::Result<()> {
    if text.is_empty() || text.starts_with(b"#") {
        return print::line(writer, text);
    }
    let mut out = [0xaa; 65536];
    match run_call(text, kept, &mut out) {
        Some((answer, written)) => print::answer(writer, answer, written),
        None => print::malformed(writer, number),
    }
}

// Makes the call of a line: its answer, and its output; none where the line is malformed.
fn run_call<'a>(text: &[u8], kept: &mut Kept, out: &'a mut [u8]) -> Option<(Answer, &'a [u8])> {
    let (letters, arguments) = words::cut(text, b' ');
    let call = Call::named(letters)?;
    let mut image = [0u8; 65536];
    let mut reading = [0u8; 4096];
    let words = words::read(arguments.unwrap_or(&[]), kept, &mut image, &mut reading)?;
    let room = out.get_mut(..words.out.unwrap_or(0))?;
    let outcome = call.outcome(words, room)?;
    if let Ok(res) = outcome {
        kept.keep(call, res, room);
    }
    Some((Answer::from(outcome), room))
}
