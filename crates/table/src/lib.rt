//! The rule table as the code has it, and one rule of it: made, with its constants gone, and written.
#![tactic(auto)]

ghost use Rattle.std.specs.Prelude.{◌≡◌, true, ◌+◌, ◌≤◌, ◌<◌, IfSome, length, get_or};
ghost use Rattle.wire.specs.Wire.{over};
ghost use Rattle.flat.specs.Table.{rows, label_count};
ghost use Rattle.flat.specs.Flat.{fact};
ghost use Rattle.table.specs.Shapes.{kind_shapes, rows_literals, Named, Fillable};
ghost use Rattle.table.specs.OneRule.{decode, rule_in, all_names, no_literals, added, added_to, made_of, made_bytes};

use program::Rule;
use theory::Kind;

// What may stand in a slot: the terms x of left and y of right, the node's label L, and M, the label for the negation of right.
const X: u8 = 0;

const Y: u8 = 1;

const L: u8 = 2;

const M: u8 = 3;

// An unused slot: behind the four terms stands 0.
const NONE: u8 = 4;

// A row for each rule: heads, positives, negatives, and which term in which slot.
static SHAPES: [[u8; 6]; 14] = [
    [1, 0, 1, L, X, NONE],
    [0, 2, 0, L, X, NONE],
    [1, 1, 0, X, L, NONE],
    [1, 1, 0, Y, L, NONE],
    [1, 2, 0, L, X, Y],
    [1, 1, 0, L, X, NONE],
    [1, 1, 0, L, Y, NONE],
    [2, 1, 0, X, Y, L],
    [1, 2, 0, Y, L, X],
    [1, 0, 1, L, X, NONE],
    [1, 1, 0, L, Y, NONE],
    [3, 0, 0, X, M, L],
    [1, 0, 1, M, Y, NONE],
    [0, 2, 0, M, Y, NONE],
];

// Of each kind its first row, its number of rows, its number of labels and its rows' number of literals.
static KINDS: [[u8; 4]; 7] = [
    [0, 0, 0, 0],
    [0, 0, 0, 0],
    [0, 0, 0, 0],
    [0, 2, 1, 4],
    [2, 3, 1, 7],
    [5, 3, 1, 7],
    [8, 6, 2, 14],
];

// The rows of a kind.
pub fn rows(kind: Kind) -> &'static [[u8; 6]]
    ensures { result.now ≡ kind_shapes kind }
{
    let [first, count, _, _] = KINDS[kind as usize];
    let first = usize::from(first);
    &SHAPES[first..first + usize::from(count)]
}

// How many labels a node of a kind takes.
pub fn label_count(kind: Kind) -> usize
    ensures { (result ≡ label_count kind) × (result ≤ 2) }
{
    usize::from(KINDS[kind as usize][2])
}

// How many literals a kind's rows have.
pub fn literal_count(kind: Kind) -> usize
    ensures { (result ≡ rows_literals (rows kind)) × (result ≤ 14) }
{
    usize::from(KINDS[kind as usize][3])
}

// The terms that are constants; every other term is an atom's number or a label's.
pub const FALSE: usize = 65534;

pub const TRUE: usize = 65535;

// The terms of x, y, L and M, and behind them 0, which an unused slot holds.
#[derive(Clone, Copy)]
pub struct Terms {
    pub numbers: [usize; 5],
    ghost ended: { get_or numbers 4 0 ≡ 0 },
}

impl Terms {
    // Are they all names?
    pub fn all_names(&self) -> bool
        ensures { result ≡ all_names self.now.numbers }
    {
        self.numbers[0] < FALSE
            && (self.numbers[1] < FALSE && (self.numbers[2] < FALSE && self.numbers[3] < FALSE))
    }
}

// The literals of a rule that is being made: how many slots are used, and the slots.
#[derive(Clone, Copy)]
struct Literals {
    used: usize,
    slots: [usize; 3],
}

impl Literals {
    // None yet.
    fn none() -> Literals
        ensures { result ≡ no_literals }
    {
        Literals {
            used: 0,
            slots: [0, 0, 0],
        }
    }

    // One literal more, or none where its term removes the rule.
    fn add(self, removing: usize, term: usize) -> Option<Literals>
        requires { self.used < 3 }
        ensures value { result ≡ added self removing term }
        ensures used { IfSome result (λ l. (self.used ≤ l.used) × (l.used ≤ self.used + 1)) }
    {
        if term == removing {
            return None;
        }
        if term == FALSE || term == TRUE {
            return Some(self);
        }
        let mut slots = self.slots;
        slots[self.used] = term;
        Some(Literals {
            used: self.used + 1,
            slots,
        })
    }

    // The terms of `count` slots of a shape more, from the slot at `start` on.
    fn add_slots(
        self,
        removing: usize,
        shape: &[u8; 6],
        terms: &Terms,
        start: usize,
        count: usize,
    ) -> Option<Literals>
        requires { (self.used + count ≤ 3) × (start + count ≤ 6) × Named shape.now }
        ensures value { result ≡ added_to self removing (λ j. get_or terms.now.numbers (get_or shape.now (start + j) 0) 0) count }
        ensures used { IfSome result (λ l. (self.used ≤ l.used) × (l.used ≤ self.used + count)) }
    {
        let mut all = self;
        for j in 0..count {
            all = all.add(removing, terms.numbers[usize::from(shape[start + j])])?;
        }
        Some(all)
    }
}

// The rule of a shape, where the terms of x, y, L and M are all names: it stays with all its literals.
fn make_of_names(shape: &[u8; 6], terms: &Terms) -> Rule
    requires fillable { Fillable shape.now }
    requires terms_value { all_names terms.now.numbers ≡ true }
    ensures { Some result ≡ made_of (rule_in shape.now terms.now.numbers) }
{
    Rule {
        heads: usize::from(shape[0]),
        positives: usize::from(shape[1]),
        negatives: usize::from(shape[2]),
        slots: [
            terms.numbers[usize::from(shape[3])],
            terms.numbers[usize::from(shape[4])],
            terms.numbers[usize::from(shape[5])],
        ],
    }
}

// The rule of a shape, its literals added one by one, whatever the terms.
fn make_of_terms(shape: &[u8; 6], terms: &Terms) -> Option<Rule>
    requires { Fillable shape.now }
    ensures { result ≡ made_of (rule_in shape.now terms.now.numbers) }
{
    let heads = usize::from(shape[0]);
    let positives = usize::from(shape[1]);
    let negatives = usize::from(shape[2]);
    let a = Literals::none().add_slots(TRUE, shape, terms, 3, heads)?;
    let b = a.add_slots(FALSE, shape, terms, 3 + heads, positives)?;
    let c = b.add_slots(TRUE, shape, terms, 3 + heads + positives, negatives)?;
    let slots = c.slots;
    Some(Rule {
        heads: a.used,
        positives: b.used - a.used,
        negatives: c.used - b.used,
        slots,
    })
}

// The rule of a shape, where x, y, L and M have these terms, by the straight way where no constant is among them; none where it is removed.
pub fn make(shape: &[u8; 6], terms: &Terms) -> Option<Rule>
    requires { Fillable shape.now }
    ensures { result ≡ made_of (rule_in shape.now terms.now.numbers) }
{
    if terms.all_names() {
        return Some(make_of_names(shape, terms));
    }
    make_of_terms(shape, terms)
}

// The fact that holds a term, if it stays.
pub fn fact_of(term: usize) -> Option<Rule>
    ensures { result ≡ made_of (fact (decode term)) }
{
    let head = Literals::none().add(TRUE, term)?;
    let slots = head.slots;
    Some(Rule {
        heads: head.used,
        positives: 0,
        negatives: 0,
        slots,
    })
}

// Writes what stays of a rule over the start of `out`, and gives how many bytes that is.
pub fn put_rule(out: &mut [u8], packed: bool, made: &Option<Rule>) -> usize
    requires { length (made_bytes packed made.now) ≤ length out.old }
    ensures value { result ≡ length (made_bytes packed made.now) }
    ensures out_after { out.new ≡ over (made_bytes packed made.now) out.old }
{
    match made {
        Some(rule) => rule.put(out, packed),
        None => 0,
    }
}
