//! The candidate test of either image, and the listing of a small theory's answer sets.
#![tactic(auto)]

ghost use Rattle.std.specs.Prelude.{◌≡◌, true, ℕ, List, ◌+◌, ◌*◌, ◌^◌, ◌≤◌, ◌<◌, count_by, length, take};
ghost use Rattle.std.specs.List.{range_with_len};
ghost use Rattle.wire.specs.Wire.{over, all_below};
ghost use Rattle.refusal.specs.Limits.{most_nodes, most_b, most_true};
ghost use Rattle.refusal.specs.Table.{answer};
ghost use Rattle.refusal.specs.Refusal.{answer_of};
ghost use Rattle.refusal.specs.Rows.{count_true};
ghost use Rattle.logic.specs.Formula.{Formula, reading_of, satisfies};
ghost use Rattle.logic.specs.Atoms.{Atoms};
ghost use Rattle.logic.specs.AnswerSet.{is_answer_set};
ghost use Rattle.theory.specs.Book.{book_formulas};
ghost use Rattle.theory.specs.Image.{atom_count, book_of};
ghost use Rattle.program.specs.Program.{program_formulas};
ghost use Rattle.program.specs.Image.{size_of, program_of};
ghost use Rattle.stable.specs.Testable.{Testable};
ghost use Rattle.stable.specs.Subset.{set_of, Candidate, candidate_of, lowered, places_of};
ghost use Rattle.stable.specs.Number.{set_of_number};
ghost use Rattle.stable.specs.Listing.{numbers_bytes, sets_of, sets_rows, listed};
ghost use Rattle.stable.specs.Bitmap.{bit_at, passing, eight_of, is_listed, Listable};

use program::Program;
use refusal::Refusal;
use theory::Theory;

// A checked image, as evaluations and candidate tests see it: the atoms of its readings, and whether one of these satisfies it.
pub trait Image {
    ghost atoms_of: { Self → ℕ };

    ghost formulas_of: { Self → List Formula };

    // How many of its nodes may have a value.
    ghost most_values: { ℕ };

    // How many bytes a reading has.
    fn reading_length(&self) -> usize
        ensures { (result ≡ atoms_of self.now) × (result ≤ most_b) };

    // Whether a reading satisfies it; `values` is room for the values of nodes.
    fn satisfied_by(&self, reading: &[u8], values: &mut [u8]) -> bool
        requires reading_len { length reading.now ≡ atoms_of self.now }
        requires room { most_values ≤ length values.old }
        ensures { result ≡ satisfies (reading_of reading.now) (formulas_of self.now) };
}

impl<'a> Image for Theory<'a> {
    ghost atoms_of = { λ theory. atom_count theory.image.now };

    ghost formulas_of = { λ theory. book_formulas (book_of theory.image.now) };

    ghost most_values = { most_nodes };

    fn reading_length(&self) -> usize {
        self.atoms()
    }

    fn satisfied_by(&self, reading: &[u8], values: &mut [u8]) -> bool {
        self.satisfied(reading, values)
    }
}

impl<'a> Image for Program<'a> {
    ghost atoms_of = { λ program. size_of program.image.now };

    ghost formulas_of = { λ program. program_formulas (program_of program.image.now) };

    ghost most_values = { 0 };

    fn reading_length(&self) -> usize {
        self.size()
    }

    fn satisfied_by(&self, reading: &[u8], _values: &mut [u8]) -> bool {
        self.satisfied(reading)
    }
}

// 2 to the `k`.
fn two_to(k: usize) -> usize
    requires { k ≤ 16 }
    ensures { (result ≡ 2 ^ k) × (1 ≤ result) × (result ≤ 65536) }
{
    1 << k
}

// Writes where the true atoms of a candidate stand over the start of `places`, and gives how many they are.
fn places_of(candidate: &[u8], places: &mut [u16; refusal::MOST_TRUE]) -> usize
    requires candidate { Candidate candidate.now }
    requires candidate_len_bound { length candidate.now ≤ most_b }
    requires candidate_bound { count_true candidate.now ≤ most_true }
    requires places_len { length places.old ≡ most_true }
    ensures places_after { take result places.new ≡ places_of (set_of candidate.now) }
    ensures value { result ≡ count_true candidate.now }
    ensures places_len_after { length places.new ≡ most_true }
{
    let mut count = 0;
    for (i, byte) in candidate.iter().enumerate() {
        if *byte == 2 {
            places[count] = i as u16;
            count += 1;
        }
    }
    count
}

// Steps a reading to that of the next subset: the first atom that the subset leaves out joins it, and those before it leave. After the full subset comes the empty one.
fn step(places: &[u16], reading: &mut [u8])
    requires { all_below (length reading.old) places.now ≡ true }
    ensures { (T : Atoms) (m : ℕ) → places.now ≡ places_of T → reading.old ≡ lowered T m → reading.new ≡ lowered T (m + 1) }
{
    for place in places {
        let at = usize::from(*place);
        if reading[at] == 1 {
            reading[at] = 2;
            return;
        }
        reading[at] = 1;
    }
}

// Whether the candidate that `reading` holds is an answer set: it satisfies, and no smaller reading does. These are stepped through in its place; `values` is room for the values of nodes.
fn is_answer_set<I: Image>(image: &I, reading: &mut [u8], values: &mut [u8]) -> bool
    requires testable { Testable (I.atoms_of image.now) reading.old }
    requires room { I.most_values ≤ length values.old }
    ensures { result ≡ is_answer_set (I.atoms_of image.now) (I.formulas_of image.now) (set_of reading.old) }
{
    if !image.satisfied_by(reading, values) {
        return false;
    }
    let mut places = [0; refusal::MOST_TRUE];
    let count = places_of(reading, &mut places);
    for _ in 0..two_to(count) - 1 {
        step(&places[..count], reading);
        if image.satisfied_by(reading, values) {
            return false;
        }
    }
    true
}

// Whether a candidate is an answer set of an image whose readings have at most `READING` bytes and at most `VALUES` of whose nodes have a value.
pub fn test<I: Image, const READING: usize, const VALUES: usize>(
    image: &I,
    candidate: &[u8],
) -> bool
    requires testable { Testable (I.atoms_of image.now) candidate.now }
    requires reading_room { I.atoms_of image.now ≤ READING }
    requires values_room { I.most_values ≤ VALUES }
    requires rooms { (READING ≤ most_b) × (VALUES ≤ most_nodes) }
    ensures { result ≡ is_answer_set (I.atoms_of image.now) (I.formulas_of image.now) (set_of candidate.now) }
{
    let mut reading = [0u8; READING];
    let mut values = [0u8; VALUES];
    let length = wire::put(&mut reading, candidate);
    is_answer_set(image, &mut reading[..length], &mut values)
}

// Writes the candidate of the set with this number over all of `out`.
fn candidate_of(number: usize, out: &mut [u8])
    ensures { out.new ≡ candidate_of (set_of_number (length out.old) number) }
{
    let mut rest = number;
    for byte in out {
        *byte = (rest % 2 * 2) as u8;
        rest /= 2;
    }
}

// Which of the eight sets with the numbers from `from` on are answer sets, a bit for each; the last two slices are room for a test.
fn eight(theory: &Theory, from: usize, reading: &mut [u8], values: &mut [u8]) -> u8
    requires listable { Listable theory.now.image.now reading.old values.old }
    requires from_bound { from ≤ 4096 }
    ensures { result ≡ eight_of (is_listed theory.now.image.now) from }
{
    let mut bits: usize = 0;
    let mut weight: usize = 1;
    for j in 0..8 {
        candidate_of(from + j, reading);
        if is_answer_set(theory, reading, values) {
            bits += weight;
        }
        weight *= 2;
    }
    bits as u8
}

// Sets the bits of the numbers whose sets are answer sets; the slices between are room for a test.
fn find_sets(theory: &Theory, reading: &mut [u8], values: &mut [u8], found: &mut [u8; 512])
    requires listable { Listable theory.now.image.now reading.old values.old }
    requires found_len { length found.old ≡ 512 }
    ensures { (c : ℕ) → c < 2 ^ atom_count theory.now.image.now → bit_at found.new c ≡ is_listed theory.now.image.now c }
{
    let sets = two_to(reading.len());
    for i in 0..sets.div_ceil(8) {
        found[i] = eight(theory, i * 8, reading, values);
    }
}

// Bit `c` of a bitmap.
fn bit_at(bitmap: &[u8; 512], c: usize) -> bool
    requires { c < 4096 }
    ensures { result ≡ bit_at bitmap.now c }
{
    (bitmap[c / 8] >> (c % 8)) % 2 == 1
}

// How many of the first `n` bits are set.
fn count_set(bitmap: &[u8; 512], n: usize) -> usize
    requires { n ≤ 4096 }
    ensures { result ≡ count_by (bit_at bitmap.now) (range_with_len 0 n) }
{
    (0..n).filter(|&c| bit_at(bitmap, c)).count()
}

// Writes the numbers of those that are set, two bytes each, over the start of `out`.
fn write_set(bitmap: &[u8; 512], n: usize, out: &mut [u8])
    requires n_bound { n ≤ 4096 }
    requires n_in_bounds { 2 * length (passing (bit_at bitmap.now) n) ≤ length out.old }
    ensures { out.new ≡ over (numbers_bytes (passing (bit_at bitmap.now) n)) out.old }
{
    let mut at = 0;
    for c in 0..n {
        if bit_at(bitmap, c) {
            at += wire::put(&mut out[at..], &wire::u16_bytes(c));
        }
    }
}

// Writes each answer set of a small theory as its number, ascending, over the start of `out`; the result is their count.
pub fn list_sets(theory: &Theory, out: &mut [u8]) -> Result<usize, Refusal>
    ensures value { answer_of result ≡ answer (sets_rows theory.now.image.now out.old) (length (sets_of theory.now.image.now)) }
    ensures out_after { out.new ≡ listed theory.now.image.now out.old }
{
    let atoms = theory.atoms();
    if refusal::MOST_LISTED < atoms {
        return Err(Refusal::TooManyAtoms { atoms });
    }
    let mut reading = [0u8; refusal::MOST_LISTED];
    let mut values = [0u8; refusal::MOST_NODES];
    let mut found = [0u8; 512];
    find_sets(theory, &mut reading[..atoms], &mut values, &mut found);
    let sets = two_to(atoms);
    let count = count_set(&found, sets);
    if out.len() < 2 * count {
        return Err(Refusal::Room { needed: 2 * count });
    }
    write_set(&found, sets, out);
    Ok(count)
}
