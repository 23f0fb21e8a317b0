// What calls wrote that later lines may name.
ghost use Rattle.std.specs.Prelude.{◌≤◌};

use crate::call::Call;
use crate::words;

// What the last accepted translation and the last accepted extension wrote.
#[derive(Drop)]
pub struct Kept {
    pub program: Written<65536>,
    pub extension: Written<4096>,
}

impl Kept {
    // Nothing yet.
    pub fn new() -> Kept {
        Kept {
            program: Written::new(),
            extension: Written::new(),
        }
    }

    // Keeps what an accepted translation or extension wrote.
    pub fn keep(&mut self, call: Call, res: usize, out: &[u8]) {
        match call {
            Call::Translate | Call::TranslatePacked => self
                .program
                .set(program(out).unwrap_or(&[])),
            Call::Extend => self.extension.set(out.get(..res).unwrap_or(&[])),
            _ => {}
        }
    }
}

// The program image of either form at the start of an output: its header has its length.
fn program(out: &[u8]) -> Option<&[u8]> {
    if out.len() < 16 {
        return None;
    }
    out.get(..wire::u32_at(out, 12))
}

// The bytes that were written last, at most `ROOM`.
#[derive(Drop)]
pub struct Written<const ROOM: usize> {
    room: [u8; ROOM],
    count: usize,
    ghost within: { count ≤ ROOM },
}

impl<const ROOM: usize> Written<ROOM> {
    fn new() -> Written<ROOM> {
        Written {
            room: [0; ROOM],
            count: 0,
        }
    }

    pub fn bytes(&self) -> &[u8] {
        &self.room[..self.count]
    }

    // Keeps these bytes, or none where there are too many.
    fn set(&mut self, bytes: &[u8]) {
        self.count = words::copy(bytes, &mut self.room).unwrap_or(0);
    }
}
