//! The program image in its two forms: flat rules as bytes.
#![tactic(auto)]

ghost use Rattle.std.specs.Prelude.{◌≡◌, true, cond, [], ◌∷◌, ◌+◌, ◌*◌, ◌≤◌, ◌<◌, IfOk, leb, ltb, length, drop};
ghost use Rattle.refusal.specs.Limits.{most_atoms, most_b};
ghost use Rattle.refusal.specs.Table.{none};
ghost use Rattle.refusal.specs.Refusal.{Decides};
ghost use Rattle.wire.specs.Wire.{over};
ghost use Rattle.logic.specs.Value.{number, negation};
ghost use Rattle.logic.specs.Formula.{reading_of, value_of};
ghost use Rattle.program.specs.Rule.{smallest, largest, holds};
ghost use Rattle.program.specs.Program.{satisfies_program};
ghost use Rattle.program.specs.Image.{atom_count, size_of, most_literals, slot_count, rule_length, used_at, slot_at, slots_from, rule_at, length_at, program_of};
ghost use Rattle.program.specs.Image.{slot_keeps, slots_keep, rule_keeps, image_length, header};
ghost use Rattle.program.specs.Literals.{Named, literal_value, slot_put, Slotted, slotted_used, first_bytes, slotted_bytes};
ghost use Rattle.program.specs.Rows.{outside, total_keeps, header_rows, rules_row, program_rows};

use logic::Value;
use refusal::Refusal;
use std::marker::Model;

// The bytes of a header, and of a rule in the fixed form.
const HEADER_LENGTH: usize = 16;

const FIXED_LENGTH: usize = 10;

// The most literals that a rule of this form has.
fn most_literals(packed: bool) -> usize
    ensures { result ≡ most_literals packed }
{
    if packed { 8 } else { 3 }
}

// The length of a rule of `used` literals.
fn rule_length(packed: bool, used: usize) -> usize
    requires { used < 65536 }
    ensures { result ≡ rule_length packed used }
{
    if packed { 4 + used * 2 } else { FIXED_LENGTH }
}

// The length of the image of `rules` rules that have `literals` literals in all.
pub fn image_length(packed: bool, rules: usize, literals: usize) -> usize
    requires { (rules < 65536) × (literals < 65536) }
    ensures { result ≡ image_length packed rules literals }
{
    if packed {
        HEADER_LENGTH + rules * 4 + literals * 2
    } else {
        HEADER_LENGTH + rules * FIXED_LENGTH
    }
}

// The header of an image of `rules` rules, with its total length.
#[tactic(auto, unfolding(crate::specs::Image::header))]
pub fn header_bytes(packed: bool, atoms: usize, size: usize, rules: usize, total: usize) -> [u8; 16]
    ensures { result ≡ header packed atoms size rules total }
{
    let a = wire::u16_bytes(atoms);
    let b = wire::u16_bytes(size);
    let k = wire::u16_bytes(rules);
    let form = wire::u16_bytes(usize::from(packed));
    let bytes = wire::u32_bytes(total);
    [
        a[0], a[1], b[0], b[1], k[0], k[1], form[0], form[1], 16, 0, 0, 0, bytes[0], bytes[1],
        bytes[2], bytes[3],
    ]
}

// A rule of at most three literals: how many heads, positives and negatives it has, and what stands in its slots.
#[derive(Clone, Copy)]
pub struct Rule {
    pub heads: usize,
    pub positives: usize,
    pub negatives: usize,
    pub slots: [usize; 3],
}

impl Model for Rule {
    ghost Value = { Slotted };

    ghost view = { λ r. record { heads = r.heads; positives = r.positives; negatives = r.negatives; slots = r.slots } };

    ghost inverse = { λ r. record { heads = r.heads; positives = r.positives; negatives = r.negatives; slots = r.slots } };

    ghost invariant = { λ r. r.heads + r.positives + r.negatives ≤ 3 };
}

impl Rule {
    // How many literals it has.
    pub fn literals(&self) -> usize
        ensures { (result ≡ slotted_used self.now) × (result ≤ 3) }
    {
        self.heads + self.positives + self.negatives
    }

    // Writes it over the start of `out`, and gives how many bytes it has. The fixed form's number of slots stands here as it is, so that no slot is tested there.
    #[tactic(auto, using(crate::proofs::Lengths::slot_lengths))]
    pub fn put(&self, out: &mut [u8], packed: bool) -> usize
        requires { length (slotted_bytes packed self.now) ≤ length out.old }
        ensures value { result ≡ length (slotted_bytes packed self.now) }
        ensures out_after { out.new ≡ over (slotted_bytes packed self.now) out.old }
    {
        if packed {
            return self.put_first(out, self.literals());
        }
        self.put_first(out, 3)
    }

    // Writes its counts and its first n slots over the start of `out`, and gives how many bytes these are.
    fn put_first(&self, out: &mut [u8], n: usize) -> usize
        requires { (n ≤ 3) × (4 + n * 2 ≤ length out.old) }
        ensures value { result ≡ 4 + n * 2 }
        ensures out_after { out.new ≡ over (first_bytes n self.now) out.old }
    {
        let counts = [
            self.heads as u8,
            self.positives as u8,
            self.negatives as u8,
            0,
        ];
        wire::put(out, &counts);
        put_slot(out, n, 0, self.slots[0]);
        put_slot(out, n, 1, self.slots[1]);
        put_slot(out, n, 2, self.slots[2]);
        4 + n * 2
    }
}

// Writes slot j of a rule behind its counts, if it is one of the first n.
fn put_slot(out: &mut [u8], n: usize, j: usize, slot: usize)
    requires { (n ≤ 3) × (4 + n * 2 ≤ length out.old) }
    ensures { out.new ≡ slot_put n j slot out.old }
{
    if n <= j {
        return;
    }
    wire::put(&mut out[4 + j * 2..], &wire::u16_bytes(slot));
}

// A program image that no row refuses.
#[derive(Clone, Copy)]
pub struct Program<'a> {
    pub image: &'a [u8],
    ghost checked: { none (program_rows image.now) ≡ true },
}

// Rows 21 to 26, in this order.
#[tactic(auto, using(crate::proofs::Accepted::header_long))]
pub fn check(image: &[u8]) -> Result<Program<'_>, Refusal>
    ensures decided { Decides (program_rows image.now) result }
    ensures same { IfOk result (λ program. program.image.now ≡ image.now) }
{
    check_header(image)?;
    let size = wire::u16_at(image, 2);
    let count = wire::u16_at(image, 4);
    let form = wire::u16_at(image, 6);
    check_rules(&image[HEADER_LENGTH..], form == 1, count, size)?;
    Ok(Program { image })
}

// Rows 21 to 25, about the header.
fn check_header(image: &[u8]) -> Result<(), Refusal>
    ensures { Decides (header_rows image.now) result }
{
    if image.len() < HEADER_LENGTH {
        return Err(Refusal::ProgramHeader);
    }
    let count = wire::u16_at(image, 4);
    if is_outside(wire::u16_at(image, 0), wire::u16_at(image, 2), count) {
        return Err(Refusal::ProgramLimits);
    }
    let form = wire::u16_at(image, 6);
    if 1 < form {
        return Err(Refusal::ProgramForm);
    }
    let total = wire::u32_at(image, 12);
    if wire::u32_at(image, 8) != HEADER_LENGTH || !total_keeps(form == 1, count, total) {
        return Err(Refusal::ProgramOffsets);
    }
    if image.len() != total {
        return Err(Refusal::ProgramLength { wanted: total });
    }
    Ok(())
}

// Whether A, B or K is outside its limits.
fn is_outside(atoms: usize, size: usize, count: usize) -> bool
    ensures { result ≡ outside atoms size count }
{
    refusal::MOST_ATOMS < atoms
        || (size < atoms || (refusal::MOST_B < size || refusal::MOST_RULES < count))
}

// Whether an image of `count` rules may have this total.
fn total_keeps(packed: bool, count: usize, total: usize) -> bool
    requires { count < 65536 }
    ensures { result ≡ total_keeps packed count total }
{
    if packed {
        HEADER_LENGTH <= total
    } else {
        total == HEADER_LENGTH + count * FIXED_LENGTH
    }
}

// Row 26 of so many rules: the first that does not keep to its form, or bytes that are left behind the last.
fn check_rules(rules: &[u8], packed: bool, count: usize, size: usize) -> Result<(), Refusal>
    requires { count < 65536 }
    ensures { Decides (rules_row packed size count rules.now ∷ []) result }
{
    let mut rest = rules;
    for index in 0..count {
        if !keeps(rest, packed, size) {
            return Err(Refusal::Rule { index });
        }
        rest = behind_first(rest, packed);
    }
    if 0 < rest.len() {
        return Err(Refusal::Rule { index: count });
    }
    Ok(())
}

// Whether the rule at the start of a slice keeps to its form, with all its literals below `size`.
fn keeps(rule: &[u8], packed: bool, size: usize) -> bool
    ensures { result ≡ rule_keeps packed size rule.now }
{
    if rule.len() < 4 {
        return false;
    }
    let used = used_at(rule);
    used <= most_literals(packed)
        && (rule_length(packed, used) <= rule.len()
            && (rule[3] == 0 && slots_keep(rule, packed, used, size)))
}

// The number of literals of the rule at the start of a slice: a sum of three bytes that need not be a byte.
fn used_at(rule: &[u8]) -> usize
    requires { 4 ≤ length rule.now }
    ensures { (result ≡ used_at rule.now) × (result < 65536) }
{
    usize::from(rule[0]) + usize::from(rule[1]) + usize::from(rule[2])
}

// What is left behind the rule at the start of a slice.
fn behind_first(rules: &[u8], packed: bool) -> &[u8]
    requires { length_at packed rules.now ≤ length rules.now }
    ensures { result.now ≡ drop (length_at packed rules.now) rules.now }
{
    &rules[rule_length(packed, used_at(rules))..]
}

// What stands in slot i of the rule at the start of a slice.
fn slot_at(rule: &[u8], i: usize) -> usize
    requires { 6 + i * 2 ≤ length rule.now }
    ensures { (result ≡ slot_at rule.now i) × (result < 65536) }
{
    wire::u16_at(rule, 4 + i * 2)
}

// Whether each slot of a rule of `used` literals keeps its part. In the fixed form all three are tested, so that the compiled code need not jump at each.
#[tactic(auto, unfolding(crate::specs::Image::slots_keep))]
fn slots_keep(rule: &[u8], packed: bool, used: usize, size: usize) -> bool
    requires { (used < 65536) × (rule_length packed used ≤ length rule.now) }
    ensures { result ≡ slots_keep size used (slot_at rule.now) (slot_count packed used) }
{
    if packed {
        return atoms_keep(rule, used, size);
    }
    slot_keeps(slot_at(rule, 0), 0, used, size)
        & (slot_keeps(slot_at(rule, 1), 1, used, size)
            & slot_keeps(slot_at(rule, 2), 2, used, size))
}

// Whether the first `used` slots hold atoms below `size`.
fn atoms_keep(rule: &[u8], used: usize, size: usize) -> bool
    requires { (used < 65536) × (rule_length true used ≤ length rule.now) }
    ensures { result ≡ slots_keep size used (slot_at rule.now) used }
{
    (0..used).all(|i| slot_at(rule, i) < size)
}

// Whether slot i of a rule of `used` literals holds an atom below `size`, or 0 where it is unused.
fn slot_keeps(atom: usize, i: usize, used: usize, size: usize) -> bool
    ensures { result ≡ slot_keeps size used i atom }
{
    atom < slot_bound(i, used, size)
}

// What slot i stays below: an atom below `size`, and 0 below 1.
fn slot_bound(i: usize, used: usize, size: usize) -> usize
    ensures { result ≡ cond (ltb i used) size 1 }
{
    if i < used { size } else { 1 }
}

impl<'a> Program<'a> {
    // A.
    #[tactic(auto, using(crate::proofs::Accepted::accepted_long, crate::proofs::Accepted::accepted_atoms))]
    pub fn atoms(&self) -> usize
        ensures { (result ≡ atom_count self.now.image.now) × (result ≤ most_atoms) }
    {
        wire::u16_at(self.image, 0)
    }

    // B.
    #[tactic(auto, using(crate::proofs::Accepted::accepted_long, crate::proofs::Accepted::accepted_size))]
    pub fn size(&self) -> usize
        ensures { (result ≡ size_of self.now.image.now) × (result ≤ most_b) }
    {
        wire::u16_at(self.image, 2)
    }

    // Whether a reading of B values satisfies every rule.
    #[tactic(auto, using(crate::proofs::Accepted::accepted_long))]
    pub fn satisfied(&self, reading: &[u8]) -> bool
        requires { length reading.now ≡ size_of self.now.image.now }
        ensures { result ≡ satisfies_program (reading_of reading.now) (program_of self.now.image.now) }
    {
        let packed = wire::u16_at(self.image, 6) == 1;
        let mut rest = &self.image[HEADER_LENGTH..];
        for _ in 0..wire::u16_at(self.image, 4) {
            let under = Under {
                rule: rest,
                reading,
            };
            if !under.holds() {
                return false;
            }
            rest = behind_first(rest, packed);
        }
        true
    }
}

// The rule at the start of a slice, with all its literals there, beside a reading that has their atoms.
#[derive(Clone, Copy)]
struct Under<'a> {
    rule: &'a [u8],
    reading: &'a [u8],
    ghost named: { Named rule.now (length reading.now) },
}

impl<'a> Under<'a> {
    // Whether the reading satisfies the rule: its largest head value is 2, or a value of its body is at most that.
    fn holds(&self) -> bool
        ensures { result ≡ holds (value_of (reading_of self.now.reading.now)) (rule_at self.now.rule.now) }
    {
        let heads = usize::from(self.rule[0]);
        let positives = usize::from(self.rule[1]);
        let negatives = usize::from(self.rule[2]);
        let head = self.largest_head(heads);
        if head == Value::BOTH {
            return true;
        }
        self.body_at_most(heads, positives, false, head)
            || self.body_at_most(heads + positives, negatives, true, head)
    }

    // The largest value of the first `count` slots.
    #[tactic(auto, using(crate::proofs::Literals::largest_none, crate::proofs::Literals::largest_slot))]
    fn largest_head(&self, count: usize) -> Value
        requires { count ≤ used_at self.now.rule.now }
        ensures { result ≡ largest (value_of (reading_of self.now.reading.now)) (slots_from self.now.rule.now 0 count) }
    {
        let mut largest = Value::NEITHER;
        for i in 0..count {
            largest = largest.or(self.value_at(i));
        }
        largest
    }

    // Whether one of the literals in `count` slots from slot `start` on, all negative or all positive, has at most the value of a head that is not 2.
    fn body_at_most(&self, start: usize, count: usize, negative: bool, head: Value) -> bool
        requires { (start + count ≤ used_at self.now.rule.now) × (number head < 2) }
        ensures { result ≡ leb (number (smallest (literal_value negative (reading_of self.now.reading.now)) (slots_from self.now.rule.now start count))) (number head) }
    {
        (start..start + count).any(|i| literal_value(self.value_at(i), negative) <= head)
    }

    // The value of the atom in slot i.
    fn value_at(&self, i: usize) -> Value
        requires { i < used_at self.now.rule.now }
        ensures { result ≡ value_of (reading_of self.now.reading.now) (slot_at self.now.rule.now i) }
    {
        Value::from(self.reading[slot_at(self.rule, i)])
    }
}

// The value of a literal whose atom has this value.
fn literal_value(value: Value, negative: bool) -> Value
    ensures { result ≡ cond negative (negation value) value }
{
    if negative { value.not() } else { value }
}
