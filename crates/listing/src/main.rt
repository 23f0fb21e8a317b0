// Prints the answer sets of the theory image on standard input, or by which row it is refused.
#![tactic(auto)]

use std::io::{self, Read, Write};

// The longest valid image has 7,184 bytes, so one byte more tells that the input is too long. 4,096 sets of two bytes fill the room.
fn main(rt: HostRuntime) -> io::Result<()> {
    let mut theory = [0u8; 7185];
    let read = io::copy(&mut rt.stdin().take(7185), &mut &mut theory[..])?;
    let length = theory.len().min(read as usize);
    let mut writer = io::writer(&rt);
    let mut room = [0u8; 8192];
    match rulebook::rulebook_list_sets(&theory[..length], &mut room) {
        Ok(count) => print_sets(&mut writer, &room, count),
        Err(refusal) => writeln!(writer, "{refusal}"),
    }
}

// How many sets there are, and a line for each of those that the room holds.
fn print_sets(writer: &mut impl Write, room: &[u8], count: usize) -> io::Result<()> {
    writeln!(writer, "sets {count}")?;
    for k in 0..count.min(room.len() / 2) {
        print_set(writer, wire::u16_at(room, k * 2))?;
    }
    Ok(())
}

// The line of one set, in which atom i weighs 2 to the i: how many atoms, then the atoms ascending.
fn print_set(writer: &mut impl Write, set: usize) -> io::Result<()> {
    write!(writer, "{}", set.count_ones())?;
    for atom in (0..16).filter(|&atom| set >> atom & 1 == 1) {
        write!(writer, " {atom}")?;
    }
    writeln!(writer)
}
