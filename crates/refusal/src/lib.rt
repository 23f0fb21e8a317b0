//! The answer of every public call, why a call refuses, and the refusals that are about a call's arguments and not about an image.
#![tactic(auto)]

ghost use Rattle.std.specs.Prelude.{◌≡◌, position};
ghost use Rattle.refusal.specs.Table.{refused, accepted};
ghost use Rattle.refusal.specs.Refusal.{field_number, number, place, answer_of, Decides};
ghost use Rattle.refusal.specs.Rows.{wrong, argument_rows, reading_rows, candidate_rows, count_true};

use std::fmt;

// The limits, as specs/Limits.antt names them.
pub const MOST_ATOMS: usize = 1024;

pub const MOST_NODES: usize = 1024;

pub const MOST_ROOTS: usize = 256;

pub const MOST_PAIRS: usize = 128;

pub const MOST_B: usize = 3072;

pub const MOST_RULES: usize = 6528;

pub const MOST_TRUE: usize = 16;

pub const MOST_LISTED: usize = 12;

// The fields of a node, in the order of their numbers.
#[derive(Clone, Copy, Debug, PartialEq, Eq)]
pub enum Field {
    Kind,
    Zero,
    Left,
    Right,
}

impl Field {
    // Its number, from 0 on.
    fn number(self) -> usize
        ensures { result ≡ field_number self }
    {
        self as usize
    }
}

// Why a call refuses: a row of the table, with what its place is made from.
#[derive(Clone, Copy, Debug, PartialEq, Eq)]
pub enum Refusal {
    TheoryHeader,
    TheoryLimits,
    TheoryOffsets,
    TheoryLength { wanted: usize },
    // A node's number has two bytes in an image.
    Node { node: u16, field: Field },
    Root { index: usize },
    Room { needed: usize },
    ArgumentLength { wanted: usize },
    ArgumentByte { index: usize },
    TooManyAtoms { atoms: usize },
    UnusedNode { node: usize },
    Pair { index: usize },
    ProgramHeader,
    ProgramLimits,
    ProgramForm,
    ProgramOffsets,
    ProgramLength { wanted: usize },
    Rule { index: usize },
}

impl Refusal {
    // The number of its row.
    pub fn number(self) -> u32
        ensures { result ≡ number self }
    {
        match self {
            Refusal::TheoryHeader => 1,
            Refusal::TheoryLimits => 2,
            Refusal::TheoryOffsets => 4,
            Refusal::TheoryLength { .. } => 5,
            Refusal::Node { .. } => 6,
            Refusal::Root { .. } => 7,
            Refusal::Room { .. } => 8,
            Refusal::ArgumentLength { .. } => 9,
            Refusal::ArgumentByte { .. } => 10,
            Refusal::TooManyAtoms { .. } => 11,
            Refusal::UnusedNode { .. } => 13,
            Refusal::Pair { .. } => 15,
            Refusal::ProgramHeader => 21,
            Refusal::ProgramLimits => 22,
            Refusal::ProgramForm => 23,
            Refusal::ProgramOffsets => 24,
            Refusal::ProgramLength { .. } => 25,
            Refusal::Rule { .. } => 26,
        }
    }

    // Its place.
    pub fn place(self) -> usize
        ensures { result ≡ place self }
    {
        match self {
            Refusal::Node { node, field } => usize::from(node) * 8 + field.number(),
            Refusal::TheoryLength { wanted }
            | Refusal::ArgumentLength { wanted }
            | Refusal::ProgramLength { wanted } => wanted,
            Refusal::Root { index }
            | Refusal::ArgumentByte { index }
            | Refusal::Pair { index }
            | Refusal::Rule { index } => index,
            Refusal::Room { needed } => needed,
            Refusal::TooManyAtoms { atoms } => atoms,
            Refusal::UnusedNode { node } => node,
            _ => 0,
        }
    }
}

impl fmt::Display for Refusal {
    fn fmt<W: fmt::Write>(&self, f: &mut fmt::Formatter<W>) -> fmt::Result {
        write!(f, "refused {} {}", self.number(), self.place())
    }
}

// What C is handed: a refusal's number (0 when accepted), a place and a result.
#[repr(C)]
#[derive(Clone, Copy, Debug, PartialEq, Eq)]
pub struct Answer {
    pub number: u32,
    pub place: usize,
    pub result: usize,
}

// The answer that refuses.
pub fn refuse(number: u32, place: usize) -> Answer
    ensures { result ≡ refused number place }
{
    Answer {
        number,
        place,
        result: 0,
    }
}

// The answer that accepts.
pub fn accept(res: usize) -> Answer
    ensures { result ≡ accepted res }
{
    Answer {
        number: 0,
        place: 0,
        result: res,
    }
}

impl From<Result<usize, Refusal>> for Answer {
    ghost from_gives = { λ outcome a. a ≡ answer_of outcome };

    fn from(outcome: Result<usize, Refusal>) -> Answer {
        match outcome {
            Ok(res) => accept(res),
            Err(refusal) => refuse(refusal.number(), refusal.place()),
        }
    }
}

impl fmt::Display for Answer {
    fn fmt<W: fmt::Write>(&self, f: &mut fmt::Formatter<W>) -> fmt::Result {
        write!(f, "{} {} {}", self.number, self.place, self.result)
    }
}

// Rows 9 and 10 for a reading of `count` atoms.
pub fn reading(bytes: &[u8], count: usize) -> Result<(), Refusal>
    ensures { Decides (reading_rows count bytes.now) result }
{
    argument(bytes, count, false)
}

// Rows 9 and 10 for a candidate of `count` atoms.
pub fn candidate(bytes: &[u8], count: usize) -> Result<(), Refusal>
    ensures { Decides (candidate_rows count bytes.now) result }
{
    argument(bytes, count, true)
}

// Rows 9 and 10: the length first, then the bytes from the first to the last.
fn argument(bytes: &[u8], count: usize, candidate: bool) -> Result<(), Refusal>
    ensures { Decides (argument_rows candidate count bytes.now) result }
{
    if bytes.len() != count {
        return Err(Refusal::ArgumentLength { wanted: count });
    }
    match first_wrong(bytes, candidate) {
        Some(index) => Err(Refusal::ArgumentByte { index }),
        None => Ok(()),
    }
}

// The index of the first byte that has no place in a reading, or in a candidate.
fn first_wrong(bytes: &[u8], candidate: bool) -> Option<usize>
    ensures { result ≡ position (wrong candidate) bytes.now }
{
    bytes.iter().position(|&byte| is_wrong(byte, candidate))
}

// Whether a byte has no place in a reading, or in a candidate.
fn is_wrong(byte: u8, candidate: bool) -> bool
    ensures { result ≡ wrong candidate byte }
{
    2 < byte || candidate && byte == 1
}

// How many bytes are 2.
pub fn count_true(bytes: &[u8]) -> usize
    ensures { result ≡ count_true bytes.now }
{
    bytes.iter().filter(|byte| **byte == 2).count()
}
