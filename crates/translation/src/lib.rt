//! Measures and writes the flat program of a theory image, and writes the extension of a reading.
#![tactic(auto)]

ghost use Rattle.std.specs.Prelude.{◌≡◌, [], ◌∷◌, map, ℕ, ◌+◌, ◌*◌, ◌≤◌, ◌<◌, true, length, take};
ghost use Rattle.refusal.specs.Limits.{most_nodes, most_rules};
ghost use Rattle.refusal.specs.Table.{none, answer};
ghost use Rattle.refusal.specs.Refusal.{answer_of};
ghost use Rattle.refusal.specs.Rows.{reading_rows};
ghost use Rattle.wire.specs.Wire.{over};
ghost use Rattle.logic.specs.Value.{number, of_byte, negation};
ghost use Rattle.logic.specs.Formula.{reading_of};
ghost use Rattle.theory.specs.Image.{atom_count, node_count, node_section, node_in, book_of};
ghost use Rattle.program.specs.Image.{rules_bytes, image_of};
ghost use Rattle.flat.specs.Table.{label_count};
ghost use Rattle.flat.specs.Flat.{term, flat};
ghost use Rattle.flat.specs.Extension.{extend as extension};
ghost use Rattle.table.specs.OneRule.{code, made_count, made_literals};
ghost use Rattle.translation.specs.Turns.{rules_of_nodes, facts_of_roots, rules_of_pairs, slot_terms, kind_rules, Counted, Numbered, label_values};
ghost use Rattle.translation.specs.Outcome.{size_of, rule_total, translate_rows, translated, extend_rows, extended};

use logic::Value;
use program::Rule;
use refusal::Refusal;
use table::Terms;
use theory::{Kind, Node, Theory};

// How many rules there are, and how many literals they have.
#[derive(Clone, Copy, Debug, PartialEq, Eq)]
struct Counts {
    rules: usize,
    literals: usize,
}

impl Counts {
    // With those of a rule more, if it stays.
    fn with(self, made: &Option<Rule>) -> Counts
        requires { (self.rules < 65536) × (self.literals < 65536) }
        ensures rules_value { (result.rules ≡ self.rules + made_count made.now) × (result.literals ≡ self.literals + made_literals made.now) }
        ensures few { (made_count made.now ≤ 1) × (made_literals made.now ≤ made_count made.now * 3) }
    {
        match made {
            Some(rule) => Counts {
                rules: self.rules + 1,
                literals: self.literals + rule.literals(),
            },
            None => self,
        }
    }

    // With those of other rules.
    fn and(self, others: Counts) -> Counts
        requires { (self.rules + others.rules < 65536) × (self.literals + others.literals < 65536) }
        ensures { (result.rules ≡ self.rules + others.rules) × (result.literals ≡ self.literals + others.literals) }
    {
        Counts {
            rules: self.rules + others.rules,
            literals: self.literals + others.literals,
        }
    }
}

// What is measured of the nodes: how many atoms and labels there are up to the last, and how many rules and literals.
#[derive(Clone, Copy, Debug, PartialEq, Eq)]
struct Totals {
    all: usize,
    counts: Counts,
}

// B: the atoms, and the labels of all nodes.
fn size(theory: &Theory) -> usize
    ensures { result ≡ size_of theory.now.image.now }
{
    let mut next = theory.atoms();
    for k in 0..theory.nodes() {
        next += table::label_count(theory.node(k).kind);
    }
    next
}

// The term of a node, by its number: a constant, its atom or its label L.
fn term_of(node: Node, next: usize) -> usize
    ensures { result ≡ code (term next node) }
{
    match node.kind {
        Kind::False => table::FALSE,
        Kind::True => table::TRUE,
        Kind::Atom => node.left,
        Kind::Not | Kind::And | Kind::Or | Kind::Implies => next,
    }
}

// The terms of x, y, L and M of a node whose labels start at `next`.
fn slot_terms(node: Node, terms: &[u16; refusal::MOST_NODES], next: usize) -> Terms
    requires { (node.left < most_nodes) × (node.right < most_nodes) × (next < 65536) }
    ensures { result.numbers ≡ slot_terms terms.now next node }
{
    Terms {
        numbers: [
            usize::from(terms[node.left]),
            usize::from(terms[node.right]),
            next,
            next + 1,
            0,
        ],
    }
}

// Counts the rules of a node of a kind, where x, y, L and M have these terms: without constants, the kind's rows.
// Only the other way reads terms by index, and it has a copy, so that here they need no memory.
fn count_node(kind: Kind, terms: &Terms) -> Counts
    ensures { Counted (kind_rules terms.now.numbers kind) result.rules result.literals }
{
    if terms.all_names() {
        return Counts {
            rules: table::rows(kind).len(),
            literals: table::literal_count(kind),
        };
    }
    let own = *terms;
    count_rows(kind, &own)
}

// Counts the rules that stay of its kind's rows, whatever the terms.
fn count_rows(kind: Kind, terms: &Terms) -> Counts
    ensures { Counted (kind_rules terms.now.numbers kind) result.rules result.literals }
{
    let mut counts = Counts {
        rules: 0,
        literals: 0,
    };
    for shape in table::rows(kind) {
        counts = counts.with(&table::make(shape, terms));
    }
    counts
}

// Measures the nodes in one pass: each node's term goes into `terms`, labels being numbered from A upward, and its rules are counted.
fn measure(theory: &Theory, terms: &mut [u16; refusal::MOST_NODES]) -> Totals
    requires { length terms.old ≡ most_nodes }
    ensures all_value { result.all ≡ size_of theory.now.image.now }
    ensures counted { Counted (rules_of_nodes theory.now.image.now) result.counts.rules result.counts.literals }
    ensures numbered { Numbered theory.now.image.now terms.new }
{
    let mut all = theory.atoms();
    let mut counts = Counts {
        rules: 0,
        literals: 0,
    };
    for k in 0..theory.nodes() {
        let node = theory.node(k);
        terms[k] = term_of(node, all) as u16;
        counts = counts.and(count_node(node.kind, &slot_terms(node, terms, all)));
        all += table::label_count(node.kind);
    }
    Totals { all, counts }
}

// Writes the rules of a node of a kind over the start of `out`, and gives how many bytes they are.
fn write_node(out: &mut [u8], packed: bool, kind: Kind, terms: &Terms) -> usize
    requires { length (rules_bytes packed (kind_rules terms.now.numbers kind)) ≤ length out.old }
    ensures value { result ≡ length (rules_bytes packed (kind_rules terms.now.numbers kind)) }
    ensures out_after { out.new ≡ over (rules_bytes packed (kind_rules terms.now.numbers kind)) out.old }
{
    let mut at = 0;
    for shape in table::rows(kind) {
        at += table::put_rule(&mut out[at..], packed, &table::make(shape, terms));
    }
    at
}

// Writes a rule for each pair over the start of `out`: ← first, second.
fn write_pairs(out: &mut [u8], packed: bool, theory: &Theory) -> usize
    requires { length (rules_bytes packed (rules_of_pairs theory.now.image.now)) ≤ length out.old }
    ensures value { result ≡ length (rules_bytes packed (rules_of_pairs theory.now.image.now)) }
    ensures out_after { out.new ≡ over (rules_bytes packed (rules_of_pairs theory.now.image.now)) out.old }
{
    let mut at = 0;
    for i in 0..theory.pairs() {
        let pair = theory.pair(i);
        let rule = Rule {
            heads: 0,
            positives: 2,
            negatives: 0,
            slots: [pair.first, pair.second, 0],
        };
        at += rule.put(&mut out[at..], packed);
    }
    at
}

// A theory beside the numbers of its nodes' terms.
#[derive(Clone, Copy)]
struct NumberedTheory<'a> {
    theory: Theory<'a>,
    terms: &'a [u16; refusal::MOST_NODES],
    ghost numbered: { Numbered theory.image.now terms.now },
}

impl<'a> NumberedTheory<'a> {
    // Counts the facts of the roots.
    fn count_facts(&self) -> Counts
        ensures { Counted (facts_of_roots self.now.terms.now self.now.theory.image.now) result.rules result.literals }
    {
        let mut counts = Counts {
            rules: 0,
            literals: 0,
        };
        for i in 0..self.theory.roots() {
            let term = self.terms[self.theory.root(i)];
            counts = counts.with(&table::fact_of(usize::from(term)));
        }
        counts
    }

    // Counts all rules: those of the nodes, which are measured already, the facts of the roots, and a rule of two literals for each pair.
    fn count(&self, nodes: Counts) -> Counts
        requires { Counted (rules_of_nodes self.now.theory.image.now) nodes.rules nodes.literals }
        ensures { Counted (flat (book_of self.now.theory.image.now)).rules result.rules result.literals × (result.rules ≤ most_rules) }
    {
        let facts = self.count_facts();
        let pairs = self.theory.pairs();
        nodes.and(facts).and(Counts {
            rules: pairs,
            literals: pairs * 2,
        })
    }

    // Writes the rules of all nodes over the start of `out`, each node's into the unwritten rest.
    fn write_nodes(&self, out: &mut [u8], packed: bool) -> usize
        requires { length (rules_bytes packed (rules_of_nodes self.now.theory.image.now)) ≤ length out.old }
        ensures value { result ≡ length (rules_bytes packed (rules_of_nodes self.now.theory.image.now)) }
        ensures out_after { out.new ≡ over (rules_bytes packed (rules_of_nodes self.now.theory.image.now)) out.old }
    {
        let mut next = self.theory.atoms();
        let mut at = 0;
        for k in 0..self.theory.nodes() {
            let node = self.theory.node(k);
            at += write_node(
                &mut out[at..],
                packed,
                node.kind,
                &slot_terms(node, self.terms, next),
            );
            next += table::label_count(node.kind);
        }
        at
    }

    // Writes a fact for each root over the start of `out`.
    fn write_facts(&self, out: &mut [u8], packed: bool) -> usize
        requires { length (rules_bytes packed (facts_of_roots self.now.terms.now self.now.theory.image.now)) ≤ length out.old }
        ensures value { result ≡ length (rules_bytes packed (facts_of_roots self.now.terms.now self.now.theory.image.now)) }
        ensures out_after { out.new ≡ over (rules_bytes packed (facts_of_roots self.now.terms.now self.now.theory.image.now)) out.old }
    {
        let mut at = 0;
        for root in 0..self.theory.roots() {
            let term = self.terms[self.theory.root(root)];
            at += table::put_rule(&mut out[at..], packed, &table::fact_of(usize::from(term)));
        }
        at
    }

    // Writes all rules over the start of `out`: those of the nodes, then a fact for each root, then a rule for each pair.
    fn write_rules(&self, out: &mut [u8], packed: bool) -> usize
        requires { length (rules_bytes packed (flat (book_of self.now.theory.image.now)).rules) ≤ length out.old }
        ensures value { result ≡ length (rules_bytes packed (flat (book_of self.now.theory.image.now)).rules) }
        ensures out_after { out.new ≡ over (rules_bytes packed (flat (book_of self.now.theory.image.now)).rules) out.old }
    {
        let at = self.write_nodes(out, packed);
        let end = at + self.write_facts(&mut out[at..], packed);
        end + write_pairs(&mut out[end..], packed, &self.theory)
    }

    // Writes the program's image over the start of `out`: the rules, and the header last.
    fn write(&self, out: &mut [u8], packed: bool, size: usize, rules: usize, total: usize)
        requires { (size ≡ size_of self.now.theory.image.now) × (rules ≡ rule_total self.now.theory.image.now) × (total ≡ length (image_of packed (flat (book_of self.now.theory.image.now)))) × (total ≤ length out.old) }
        ensures { out.new ≡ over (image_of packed (flat (book_of self.now.theory.image.now))) out.old }
    {
        self.write_rules(&mut out[16..], packed);
        let header = program::header_bytes(packed, self.theory.atoms(), size, rules, total);
        wire::put(out, &header);
    }
}

// The translation of a theory image into a program image of either form: row 8 first, and K rules where it does not apply.
pub fn translate(theory: &Theory, packed: bool, out: &mut [u8]) -> Result<usize, Refusal>
    ensures value { answer_of result ≡ answer (translate_rows packed theory.now.image.now (length out.old)) (rule_total theory.now.image.now) }
    ensures out_after { out.new ≡ translated packed theory.now.image.now out.old }
{
    let mut terms = [0u16; refusal::MOST_NODES];
    let measured = measure(theory, &mut terms);
    let numbered = NumberedTheory {
        theory: *theory,
        terms: &terms,
    };
    let whole = numbered.count(measured.counts);
    let needed = program::image_length(packed, whole.rules, whole.literals);
    if out.len() < needed {
        return Err(Refusal::Room { needed });
    }
    numbered.write(out, packed, measured.all, whole.rules, needed);
    Ok(whole.rules)
}

// Writes the labels of a node over the start of `out`: L holds the node's value, and M, where there is one, that of not its right side.
fn put_labels(out: &mut [u8], labels: usize, value: u8, right: u8) -> usize
    requires { (labels ≤ 2) × (labels ≤ length out.old) }
    ensures value { result ≡ labels }
    ensures out_after { out.new ≡ over (take labels (value ∷ number (negation (of_byte right)) ∷ [])) out.old }
{
    let bytes = [value, u8::from(Value::from(right).not())];
    wire::put(out, &bytes[..labels])
}

// Writes the labels of all nodes over the start of `out`, each node's into the unwritten rest; `values` holds the nodes' values.
fn write_labels(out: &mut [u8], theory: &Theory, values: &[u8; refusal::MOST_NODES]) -> usize
    requires { length (label_values values.now theory.now.image.now) ≤ length out.old }
    ensures value { result ≡ length (label_values values.now theory.now.image.now) }
    ensures out_after { out.new ≡ over (label_values values.now theory.now.image.now) out.old }
{
    let mut at = 0;
    for k in 0..theory.nodes() {
        let node = theory.node(k);
        let labels = table::label_count(node.kind);
        at += put_labels(&mut out[at..], labels, values[k], values[node.right]);
    }
    at
}

// Writes the extension of a reading over the start of `out`: the reading, and then each label's value.
fn write_extension(theory: &Theory, reading: &[u8], out: &mut [u8])
    requires { (none (reading_rows (atom_count theory.now.image.now) reading.now) ≡ true) × (size_of theory.now.image.now ≤ length out.old) }
    ensures { out.new ≡ over (map number (extension (book_of theory.now.image.now) (reading_of reading.now))) out.old }
{
    let mut scratch = [0u8; refusal::MOST_NODES];
    theory.values(reading, &mut scratch);
    let at = wire::put(out, reading);
    write_labels(&mut out[at..], theory, &scratch);
}

// The extension of a reading to the labels of a theory image: rows 9, 10 and 8 first, and B bytes where none applies.
pub fn extend(theory: &Theory, reading: &[u8], out: &mut [u8]) -> Result<usize, Refusal>
    ensures value { answer_of result ≡ answer (extend_rows theory.now.image.now reading.now (length out.old)) (size_of theory.now.image.now) }
    ensures out_after { out.new ≡ extended theory.now.image.now reading.now out.old }
{
    let atoms = theory.atoms();
    refusal::reading(reading, atoms)?;
    let all = size(theory);
    if out.len() < all {
        return Err(Refusal::Room { needed: all });
    }
    write_extension(theory, reading, out);
    Ok(all)
}
