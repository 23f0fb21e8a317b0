//! The theory image: whether it is one, and what its nodes, roots and pairs are worth under a reading.
#![tactic(auto)]

ghost use Rattle.std.specs.Prelude.{◌≡◌, true, not, ◌&&◌, ◌||◌, map, ℕ, ◌+◌, ◌*◌, ◌≤◌, ◌<◌, IfOk, eqb, ltb, length, get_or, take, replicate, position, [], ◌∷◌};
ghost use Rattle.std.specs.List.{list_all, range_with_len};
ghost use Rattle.refusal.specs.Table.{none};
ghost use Rattle.refusal.specs.First.{found};
ghost use Rattle.refusal.specs.Limits.{most_atoms, most_nodes, most_roots, most_pairs};
ghost use Rattle.refusal.specs.Refusal.{Decides};
ghost use Rattle.logic.specs.Value.{number, true_here};
ghost use Rattle.logic.specs.Formula.{reading_of, value_of, value, satisfies};
ghost use Rattle.wire.specs.Wire.{u32_at, all_below, over};
ghost use Rattle.wire.specs.Sequence.{up_to};
ghost use Rattle.theory.specs.Book.{left_limit, right_limit, fits, pair_fits, pair_formula, book_formulas};
ghost use Rattle.theory.specs.Image.{atom_count, node_count, root_count, pair_count, roots_start, pairs_start, node_section, root_section, pair_section, kind_of, node_in, wrong_number, first_wrong, root_in, pair_in, book_of};
ghost use Rattle.theory.specs.Used.{operands, all_operands, used};
ghost use Rattle.theory.specs.Marks.{marked};
ghost use Rattle.theory.specs.Rows.{row6, row7, row15, header_rows, form_rows, theory_rows};
ghost use Rattle.theory.specs.NodeValues.{value_from, values_to, node_values};

use logic::Value;
use refusal::{Field, Refusal};

// The kinds of node, in the order of their bytes.
#[derive(Clone, Copy, Debug, PartialEq, Eq)]
pub enum Kind {
    False,
    True,
    Atom,
    Not,
    And,
    Or,
    Implies,
}

// The kind of a node's first byte; row 6 refuses a byte over 6.
impl From<u8> for Kind {
    ghost from_gives = { λ byte kind. kind ≡ kind_of byte };

    fn from(byte: u8) -> Kind {
        match byte {
            0 => Kind::False,
            1 => Kind::True,
            2 => Kind::Atom,
            3 => Kind::Not,
            4 => Kind::And,
            5 => Kind::Or,
            _ => Kind::Implies,
        }
    }
}

// A node: its kind, left and right.
#[derive(Clone, Copy, Debug, PartialEq, Eq)]
pub struct Node {
    pub kind: Kind,
    pub left: usize,
    pub right: usize,
}

// A pair: an atom and its strong negation, the smaller number first.
#[derive(Clone, Copy, Debug, PartialEq, Eq)]
pub struct Pair {
    pub first: usize,
    pub second: usize,
}

// Node k of the nodes' section.
pub fn node_at(nodes: &[u8], k: usize) -> Node
    requires { k * 6 + 6 ≤ length nodes.now }
    ensures value { result ≡ node_in nodes.now k }
    ensures bound { (result.left < 65536) × (result.right < 65536) }
{
    let i = k * 6;
    Node {
        kind: Kind::from(nodes[i]),
        left: wire::u16_at(nodes, i + 2),
        right: wire::u16_at(nodes, i + 4),
    }
}

// Root i of the roots' section.
pub fn root_at(roots: &[u8], i: usize) -> usize
    requires { i * 2 + 2 ≤ length roots.now }
    ensures { (result ≡ root_in roots.now i) × (result < 65536) }
{
    wire::u16_at(roots, i * 2)
}

// Pair i of the pairs' section.
pub fn pair_at(pairs: &[u8], i: usize) -> Pair
    requires { i * 4 + 4 ≤ length pairs.now }
    ensures value { result ≡ pair_in pairs.now i }
    ensures bound { (result.first < 65536) × (result.second < 65536) }
{
    Pair {
        first: wire::u16_at(pairs, i * 4),
        second: wire::u16_at(pairs, i * 4 + 2),
    }
}

// A of the header.
pub fn atoms(theory: &[u8]) -> usize
    requires { 16 ≤ length theory.now }
    ensures { (result ≡ atom_count theory.now) × (result < 65536) }
{
    wire::u16_at(theory, 0)
}

// N of the header.
pub fn nodes(theory: &[u8]) -> usize
    requires { 16 ≤ length theory.now }
    ensures { (result ≡ node_count theory.now) × (result < 65536) }
{
    wire::u16_at(theory, 2)
}

// R of the header.
pub fn roots(theory: &[u8]) -> usize
    requires { 16 ≤ length theory.now }
    ensures { (result ≡ root_count theory.now) × (result < 65536) }
{
    wire::u16_at(theory, 4)
}

// P of the header.
pub fn pairs(theory: &[u8]) -> usize
    requires { 16 ≤ length theory.now }
    ensures { (result ≡ pair_count theory.now) × (result < 65536) }
{
    wire::u16_at(theory, 6)
}

// Where the roots start.
pub fn roots_start(theory: &[u8]) -> usize
    requires { 16 ≤ length theory.now }
    ensures { (result ≡ roots_start (node_count theory.now)) × (result < roots_start 65536) }
{
    16 + nodes(theory) * 6
}

// Where the pairs start.
pub fn pairs_start(theory: &[u8]) -> usize
    requires { 16 ≤ length theory.now }
    ensures { (result ≡ pairs_start (node_count theory.now) (root_count theory.now)) × (result < pairs_start 65536 65536) }
{
    roots_start(theory) + roots(theory) * 2
}

// Whether A, N, R or P is over its limit.
fn over_limits(theory: &[u8]) -> bool
    requires { 16 ≤ length theory.now }
    ensures { result ≡ (ltb most_atoms (atom_count theory.now) || (ltb most_nodes (node_count theory.now) || (ltb most_roots (root_count theory.now) || ltb most_pairs (pair_count theory.now)))) }
{
    refusal::MOST_ATOMS < atoms(theory)
        || (refusal::MOST_NODES < nodes(theory)
            || (refusal::MOST_ROOTS < roots(theory) || refusal::MOST_PAIRS < pairs(theory)))
}

// Whether an offset differs.
fn offsets_differ(theory: &[u8]) -> bool
    requires { 16 ≤ length theory.now }
    ensures { result ≡ (not (eqb (u32_at theory.now 8) 16) || not (eqb (u32_at theory.now 12) (roots_start (node_count theory.now)))) }
{
    wire::u32_at(theory, 8) != 16 || wire::u32_at(theory, 12) != roots_start(theory)
}

// A theory image whose header no row refuses.
#[derive(Clone, Copy)]
struct Headed<'a> {
    image: &'a [u8],
    ghost good: { none (header_rows image.now) ≡ true },
}

// The rows on the header.
#[tactic(auto, using(std::proofs::lemmas::Bool::Decides::nat_tests), unfolding(crate::specs::Rows::header_rows))]
fn header(image: &[u8]) -> Result<Headed<'_>, Refusal>
    ensures decided { Decides (header_rows image.now) result }
    ensures same { IfOk result (λ theory. theory.image.now ≡ image.now) }
{
    if image.len() < 16 {
        return Err(Refusal::TheoryHeader);
    }
    if over_limits(image) {
        return Err(Refusal::TheoryLimits);
    }
    if offsets_differ(image) {
        return Err(Refusal::TheoryOffsets);
    }
    let wanted = pairs_start(image) + pairs(image) * 4;
    if image.len() != wanted {
        return Err(Refusal::TheoryLength { wanted });
    }
    Ok(Headed { image })
}

// What left has to be below, in node k of a theory with so many atoms.
fn left_limit(kind: Kind, atoms: usize, k: usize) -> usize
    ensures { result ≡ left_limit atoms k kind }
{
    match kind {
        Kind::False | Kind::True => 1,
        Kind::Atom => atoms,
        Kind::Not | Kind::And | Kind::Or | Kind::Implies => k,
    }
}

// What right has to be below, in node k.
fn right_limit(kind: Kind, k: usize) -> usize
    ensures { result ≡ right_limit k kind }
{
    match kind {
        Kind::False | Kind::True | Kind::Atom | Kind::Not => 1,
        Kind::And | Kind::Or | Kind::Implies => k,
    }
}

// The first field of node k that is wrong: kind, zero byte, left, right.
#[tactic(auto, using(std::proofs::lemmas::Bool::Decides::nat_tests), unfolding(refusal::specs::First::first))]
fn first_wrong_field(nodes: &[u8], k: usize, atoms: usize) -> Option<Field>
    requires { k * 6 + 6 ≤ length nodes.now }
    ensures { wrong_number result ≡ first_wrong atoms nodes.now k }
{
    if 6 < nodes[k * 6] {
        return Some(Field::Kind);
    }
    if nodes[k * 6 + 1] != 0 {
        return Some(Field::Zero);
    }
    let node = node_at(nodes, k);
    if left_limit(node.kind, atoms, k) <= node.left {
        return Some(Field::Left);
    }
    if right_limit(node.kind, k) <= node.right {
        return Some(Field::Right);
    }
    None
}

// Whether a pair is of two of the atoms, the smaller first.
fn pair_fits(pair: Pair, atoms: usize) -> bool
    ensures { result ≡ pair_fits atoms pair }
{
    pair.first < pair.second && pair.second < atoms
}

// Marks the operands of a node.
fn mark_operands(node: Node, marks: &mut [u8])
    requires { all_below (length marks.old) (operands node) ≡ true }
    ensures { marks.new ≡ marked (operands node) marks.old }
{
    match node.kind {
        Kind::False | Kind::True | Kind::Atom => {}
        Kind::Not => marks[node.left] = 1,
        Kind::And | Kind::Or | Kind::Implies => {
            marks[node.left] = 1;
            marks[node.right] = 1;
        }
    }
}

// The first of so many nodes that is not marked.
fn first_unmarked(marks: &[u8], count: usize) -> Option<usize>
    requires { count ≤ length marks.now }
    ensures { result ≡ position (λ mark. eqb mark 0) (take count marks.now) }
{
    marks[..count].iter().position(|mark| *mark == 0)
}

impl<'a> Headed<'a> {
    // A, N, R and P.
    #[tactic(auto, using(crate::proofs::Accepted::header_facts))]
    fn atoms(&self) -> usize
        ensures { (result ≡ atom_count self.now.image.now) × (result ≤ most_atoms) }
    {
        atoms(self.image)
    }

    #[tactic(auto, using(crate::proofs::Accepted::header_facts))]
    fn nodes(&self) -> usize
        ensures { (result ≡ node_count self.now.image.now) × (result ≤ most_nodes) }
    {
        nodes(self.image)
    }

    #[tactic(auto, using(crate::proofs::Accepted::header_facts))]
    fn roots(&self) -> usize
        ensures { (result ≡ root_count self.now.image.now) × (result ≤ most_roots) }
    {
        roots(self.image)
    }

    #[tactic(auto, using(crate::proofs::Accepted::header_facts))]
    fn pairs(&self) -> usize
        ensures { (result ≡ pair_count self.now.image.now) × (result ≤ most_pairs) }
    {
        pairs(self.image)
    }

    // The part of the image that starts at its nodes, and has all of them.
    #[tactic(auto, using(crate::proofs::Accepted::header_facts))]
    fn node_section(&self) -> &'a [u8]
        ensures value { result.now ≡ node_section self.now.image.now }
        ensures room { node_count self.now.image.now * 6 ≤ length result.now }
    {
        &self.image[16..]
    }

    // The part that starts at its roots, and has all of them.
    #[tactic(auto, using(crate::proofs::Accepted::header_facts))]
    fn root_section(&self) -> &'a [u8]
        ensures value { result.now ≡ root_section self.now.image.now }
        ensures room { root_count self.now.image.now * 2 ≤ length result.now }
    {
        &self.image[roots_start(self.image)..]
    }

    // The part that starts at its pairs, and has all of them.
    #[tactic(auto, using(crate::proofs::Accepted::header_facts))]
    fn pair_section(&self) -> &'a [u8]
        ensures value { result.now ≡ pair_section self.now.image.now }
        ensures room { pair_count self.now.image.now * 4 ≤ length result.now }
    {
        &self.image[pairs_start(self.image)..]
    }

    // Row 6: the first node that breaks its row, and its first field that is wrong.
    fn check_nodes(&self) -> Result<(), Refusal>
        ensures { Decides (row6 self.now.image.now ∷ []) result }
    {
        let section = self.node_section();
        let atoms = self.atoms();
        for node in 0..self.nodes() {
            if let Some(field) = first_wrong_field(section, node, atoms) {
                return Err(Refusal::Node {
                    node: node as u16,
                    field,
                });
            }
        }
        Ok(())
    }

    // The index of the first root that is not a node.
    fn first_root_not_below(&self) -> Option<usize>
        ensures { result ≡ found (λ i. not (ltb (root_in (root_section self.now.image.now) i) (node_count self.now.image.now))) (root_count self.now.image.now) }
    {
        let section = self.root_section();
        let nodes = self.nodes();
        (0..self.roots()).find(|&i| nodes <= root_at(section, i))
    }

    // Row 7.
    fn check_roots(&self) -> Result<(), Refusal>
        ensures { Decides (row7 self.now.image.now ∷ []) result }
    {
        match self.first_root_not_below() {
            Some(index) => Err(Refusal::Root { index }),
            None => Ok(()),
        }
    }

    // The index of the first pair that is not of two atoms, the smaller first.
    fn first_bad_pair(&self) -> Option<usize>
        ensures { result ≡ found (λ i. not (pair_fits (atom_count self.now.image.now) (pair_in (pair_section self.now.image.now) i))) (pair_count self.now.image.now) }
    {
        let section = self.pair_section();
        let atoms = self.atoms();
        (0..self.pairs()).find(|&i| !pair_fits(pair_at(section, i), atoms))
    }

    // Row 15.
    fn check_pairs(&self) -> Result<(), Refusal>
        ensures { Decides (row15 self.now.image.now ∷ []) result }
    {
        match self.first_bad_pair() {
            Some(index) => Err(Refusal::Pair { index }),
            None => Ok(()),
        }
    }

    // Marks the operands of each node.
    #[tactic(auto, using(crate::proofs::Used::mark_steps))]
    fn mark_nodes(&self, marks: &mut [u8])
        requires { (k : ℕ) → k < node_count self.now.image.now → all_below (length marks.old) (operands (node_in (node_section self.now.image.now) k)) ≡ true }
        ensures { marks.new ≡ marked (all_operands (up_to (node_in (node_section self.now.image.now)) (node_count self.now.image.now))) marks.old }
    {
        let section = self.node_section();
        for k in 0..self.nodes() {
            mark_operands(node_at(section, k), marks);
        }
    }

    // Marks each root.
    #[tactic(auto, using(crate::proofs::Used::mark_steps))]
    fn mark_roots(&self, marks: &mut [u8])
        requires { (i : ℕ) → i < root_count self.now.image.now → root_in (root_section self.now.image.now) i < length marks.old }
        ensures { marks.new ≡ marked (up_to (root_in (root_section self.now.image.now)) (root_count self.now.image.now)) marks.old }
    {
        let section = self.root_section();
        for i in 0..self.roots() {
            marks[root_at(section, i)] = 1;
        }
    }

    // The first node of a well-formed book that is not used. What is used is marked in `marks`, which are 0 before.
    fn first_unused(&self, marks: &mut [u8]) -> Option<usize>
        requires form { none (form_rows self.now.image.now) ≡ true }
        requires marks_value { marks.old ≡ replicate most_nodes 0 }
        ensures { result ≡ found (λ k. not (used (book_of self.now.image.now) k)) (node_count self.now.image.now) }
    {
        self.mark_nodes(marks);
        self.mark_roots(marks);
        first_unmarked(marks, self.nodes())
    }
}

// The rows that leave a well-formed book: the header, then the nodes, then the roots, then the pairs.
fn form(image: &[u8]) -> Result<Headed<'_>, Refusal>
    ensures decided { Decides (form_rows image.now) result }
    ensures same { IfOk result (λ theory. theory.image.now ≡ image.now) }
{
    let theory = header(image)?;
    theory.check_nodes()?;
    theory.check_roots()?;
    theory.check_pairs()?;
    Ok(theory)
}

// A theory image that no row refuses.
#[derive(Clone, Copy)]
pub struct Theory<'a> {
    pub image: &'a [u8],
    ghost checked: { none (theory_rows image.now) ≡ true },
}

// All rows: those of the form, then whether each node is used, for which `marks` is room; it is 0 before.
pub fn check_with<'a>(image: &'a [u8], marks: &mut [u8]) -> Result<Theory<'a>, Refusal>
    requires { marks.old ≡ replicate most_nodes 0 }
    ensures decided { Decides (theory_rows image.now) result }
    ensures same { IfOk result (λ theory. theory.image.now ≡ image.now) }
{
    let formed = form(image)?;
    match formed.first_unused(marks) {
        Some(node) => Err(Refusal::UnusedNode { node }),
        None => Ok(Theory { image }),
    }
}

// The same, with room of its own.
pub fn check(image: &[u8]) -> Result<Theory<'_>, Refusal>
    ensures decided { Decides (theory_rows image.now) result }
    ensures same { IfOk result (λ theory. theory.image.now ≡ image.now) }
{
    let mut marks = [0u8; refusal::MOST_NODES];
    check_with(image, &mut marks)
}

// The value of an atom by its byte in a reading, or of a node by its byte among those written.
fn value_at(bytes: &[u8], i: usize) -> Value
    requires { i < length bytes.now }
    ensures { result ≡ value_of (reading_of bytes.now) i }
{
    Value::from(bytes[i])
}

// The value of a node, from the values of the nodes before it.
fn node_value(node: Node, reading: &[u8], earlier: &[u8]) -> Value
    requires { fits (length reading.now) (length earlier.now) node ≡ true }
    ensures { result ≡ value_from (reading_of reading.now) (reading_of earlier.now) node }
{
    match node.kind {
        Kind::False => Value::NEITHER,
        Kind::True => Value::BOTH,
        Kind::Atom => value_at(reading, node.left),
        Kind::Not => value_at(earlier, node.left).not(),
        Kind::And => value_at(earlier, node.left).and(value_at(earlier, node.right)),
        Kind::Or => value_at(earlier, node.left).or(value_at(earlier, node.right)),
        Kind::Implies => value_at(earlier, node.left).implies(value_at(earlier, node.right)),
    }
}

// Whether a reading satisfies a pair: its formula is 2 exactly if the smaller of its two values is 0.
fn pair_holds(pair: Pair, reading: &[u8]) -> bool
    requires { pair_fits (length reading.now) pair ≡ true }
    ensures { result ≡ true_here (value (reading_of reading.now) (pair_formula pair)) }
{
    value_at(reading, pair.first).and(value_at(reading, pair.second)) == Value::NEITHER
}

// Whether each of the first `count` roots has the value 2, by the values of nodes.
fn roots_hold(roots: &[u8], values: &[u8], count: usize) -> bool
    requires count_in_bounds { count * 2 ≤ length roots.now }
    requires by_index { (i : ℕ) → i < count → root_in roots.now i < length values.now }
    ensures { result ≡ list_all (λ i. eqb (get_or values.now (root_in roots.now i) 0) 2) (range_with_len 0 count) }
{
    (0..count).all(|i| values[root_at(roots, i)] == 2)
}

// Whether a reading satisfies each of the first `count` pairs.
fn pairs_hold(pairs: &[u8], reading: &[u8], count: usize) -> bool
    requires count_in_bounds { count * 4 ≤ length pairs.now }
    requires by_index { (i : ℕ) → i < count → pair_fits (length reading.now) (pair_in pairs.now i) ≡ true }
    ensures { result ≡ list_all (λ i. true_here (value (reading_of reading.now) (pair_formula (pair_in pairs.now i)))) (range_with_len 0 count) }
{
    (0..count).all(|i| pair_holds(pair_at(pairs, i), reading))
}

impl<'a> Theory<'a> {
    // The same image, of which the header alone is known.
    #[tactic(auto, using(crate::proofs::Accepted::theory_header))]
    fn headed(&self) -> Headed<'a>
        ensures { result.image.now ≡ self.now.image.now }
    {
        Headed { image: self.image }
    }

    // A, N, R and P.
    pub fn atoms(&self) -> usize
        ensures { (result ≡ atom_count self.now.image.now) × (result ≤ most_atoms) }
    {
        self.headed().atoms()
    }

    pub fn nodes(&self) -> usize
        ensures { (result ≡ node_count self.now.image.now) × (result ≤ most_nodes) }
    {
        self.headed().nodes()
    }

    pub fn roots(&self) -> usize
        ensures { (result ≡ root_count self.now.image.now) × (result ≤ most_roots) }
    {
        self.headed().roots()
    }

    pub fn pairs(&self) -> usize
        ensures { (result ≡ pair_count self.now.image.now) × (result ≤ most_pairs) }
    {
        self.headed().pairs()
    }

    // The parts of the image that start at the nodes, at the roots and at the pairs.
    pub fn node_section(&self) -> &'a [u8]
        ensures value { result.now ≡ node_section self.now.image.now }
        ensures room { node_count self.now.image.now * 6 ≤ length result.now }
    {
        self.headed().node_section()
    }

    pub fn root_section(&self) -> &'a [u8]
        ensures value { result.now ≡ root_section self.now.image.now }
        ensures room { root_count self.now.image.now * 2 ≤ length result.now }
    {
        self.headed().root_section()
    }

    pub fn pair_section(&self) -> &'a [u8]
        ensures value { result.now ≡ pair_section self.now.image.now }
        ensures room { pair_count self.now.image.now * 4 ≤ length result.now }
    {
        self.headed().pair_section()
    }

    // Node k, root i and pair i.
    pub fn node(&self, k: usize) -> Node
        requires { k < node_count self.now.image.now }
        ensures value { result ≡ node_in (node_section self.now.image.now) k }
        ensures bound { (result.left < most_nodes) × (result.right < most_nodes) }
    {
        node_at(self.node_section(), k)
    }

    pub fn root(&self, i: usize) -> usize
        requires { i < root_count self.now.image.now }
        ensures { (result ≡ root_in (root_section self.now.image.now) i) × (result < node_count self.now.image.now) }
    {
        root_at(self.root_section(), i)
    }

    pub fn pair(&self, i: usize) -> Pair
        requires { i < pair_count self.now.image.now }
        ensures { result ≡ pair_in (pair_section self.now.image.now) i }
    {
        pair_at(self.pair_section(), i)
    }

    // Writes the value of each node under a reading, over the start of `values`.
    pub fn values(&self, reading: &[u8], values: &mut [u8])
        requires reading_len { length reading.now ≡ atom_count self.now.image.now }
        requires theory_in_bounds { node_count self.now.image.now ≤ length values.old }
        ensures { values.new ≡ over (map number (node_values (book_of self.now.image.now) (reading_of reading.now))) values.old }
    {
        for k in 0..self.nodes() {
            let value = node_value(self.node(k), reading, &values[..k]);
            values[k] = u8::from(value);
        }
    }

    // Whether a reading satisfies the theory: its nodes' values go to `scratch`, where each root is looked up, and then each pair is looked up in the reading.
    pub fn satisfied(&self, reading: &[u8], scratch: &mut [u8]) -> bool
        requires reading_len { length reading.now ≡ atom_count self.now.image.now }
        requires theory_in_bounds { node_count self.now.image.now ≤ length scratch.old }
        ensures { result ≡ satisfies (reading_of reading.now) (book_formulas (book_of self.now.image.now)) }
    {
        self.values(reading, scratch);
        roots_hold(self.root_section(), scratch, self.roots())
            && pairs_hold(self.pair_section(), reading, self.pairs())
    }
}
