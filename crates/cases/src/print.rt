// What the program prints.
use refusal::Answer;
use std::io::{self, Write};

// The longest output whose bytes are printed.
const MOST_PRINTED: usize = 256;

// A line as it stands.
pub fn line(writer: &mut impl Write, text: &[u8]) -> io::Result<()> {
    writer.write_all(text)?;
    writer.write_all(b"\n")
}

// That a line is malformed, and its number.
pub fn malformed(writer: &mut impl Write, number: usize) -> io::Result<()> {
    writeln!(writer, "line {number} is malformed")
}

// Number, place and result of an answer, and the bytes of a short output.
pub fn answer(writer: &mut impl Write, answer: Answer, out: &[u8]) -> io::Result<()> {
    write!(writer, "{answer}")?;
    if out.len() <= MOST_PRINTED {
        for byte in out {
            write!(writer, " {byte:02x}")?;
        }
    }
    writeln!(writer)
}
