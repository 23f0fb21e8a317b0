//! The public calls. Each takes any bytes in every slice, trusts no earlier check, and has no `requires`. An outcome is the result, or why the call refuses; `answer_of` gives the answer that it is.
#![tactic(auto)]

ghost use Rattle.std.specs.Prelude.{◌≡◌, ◌≤◌, ◌++◌, [], ◌∷◌, length};
ghost use Rattle.refusal.specs.Limits.{most_nodes, most_b};
ghost use Rattle.refusal.specs.Table.{yes, answer};
ghost use Rattle.refusal.specs.Refusal.{answer_of};
ghost use Rattle.refusal.specs.Rows.{reading_rows, candidate_rows};
ghost use Rattle.logic.specs.Formula.{reading_of, satisfies};
ghost use Rattle.logic.specs.AnswerSet.{is_answer_set};
ghost use Rattle.stable.specs.Subset.{set_of};
ghost use Rattle.rulebook.specs.Calls.{ChecksTheory, EvaluatesTheory, Translates, ExtendsReading, TestsTheory, ListsSets, ChecksProgram, EvaluatesProgram, TestsProgram, row11_true};

use program::Program;
use refusal::Refusal;
use stable::Image;
use theory::Theory;

// Checks a theory image.
pub fn rulebook_check_theory(theory: &[u8]) -> Result<usize, Refusal>
    ensures { ChecksTheory theory.now (answer_of result) }
{
    theory::check(theory)?;
    Ok(1)
}

// Whether a reading, a byte for each atom, satisfies a theory.
pub fn rulebook_evaluate_theory(theory: &[u8], reading: &[u8]) -> Result<usize, Refusal>
    ensures { EvaluatesTheory theory.now reading.now (answer_of result) }
{
    let mut scratch = [0u8; refusal::MOST_NODES];
    let theory = theory::check_with(theory, &mut scratch)?;
    evaluate(&theory, reading, &mut scratch)
}

// Translates a theory into a flat program image, packed or fixed.
pub fn rulebook_translate(theory: &[u8], packed: bool, out: &mut [u8]) -> Result<usize, Refusal>
    ensures { Translates theory.now packed out.old (answer_of result) out.new }
{
    let theory = theory::check(theory)?;
    translation::translate(&theory, packed, out)
}

// Extends a reading of a theory's atoms to the labels of its flat program.
pub fn rulebook_extend(theory: &[u8], reading: &[u8], out: &mut [u8]) -> Result<usize, Refusal>
    ensures { ExtendsReading theory.now reading.now out.old (answer_of result) out.new }
{
    let theory = theory::check(theory)?;
    translation::extend(&theory, reading, out)
}

// Whether a candidate, a byte 0 or 2 for each atom, is an answer set of a theory.
pub fn rulebook_test_theory(theory: &[u8], candidate: &[u8]) -> Result<usize, Refusal>
    ensures { TestsTheory theory.now candidate.now (answer_of result) }
{
    let theory = theory::check(theory)?;
    test::<Theory, { refusal::MOST_ATOMS }, { refusal::MOST_NODES }>(&theory, candidate)
}

// Lists the answer sets of a small theory: a 2-byte number each, in which atom i weighs 2 to the i.
pub fn rulebook_list_sets(theory: &[u8], out: &mut [u8]) -> Result<usize, Refusal>
    ensures { ListsSets theory.now out.old (answer_of result) out.new }
{
    let theory = theory::check(theory)?;
    stable::list_sets(&theory, out)
}

// Checks a program image.
pub fn rulebook_check_program(program: &[u8]) -> Result<usize, Refusal>
    ensures { ChecksProgram program.now (answer_of result) }
{
    program::check(program)?;
    Ok(1)
}

// Whether a reading, a byte for each atom and label, satisfies a program.
pub fn rulebook_evaluate_program(program: &[u8], reading: &[u8]) -> Result<usize, Refusal>
    ensures { EvaluatesProgram program.now reading.now (answer_of result) }
{
    let program = program::check(program)?;
    evaluate(&program, reading, &mut [])
}

// Whether a candidate, a byte 0 or 2 for each atom and label, is an answer set of a program.
pub fn rulebook_test_program(program: &[u8], candidate: &[u8]) -> Result<usize, Refusal>
    ensures { TestsProgram program.now candidate.now (answer_of result) }
{
    let program = program::check(program)?;
    test::<Program, { refusal::MOST_B }, 0>(&program, candidate)
}

// Rows 9 and 10 for a reading of a checked image; the result is whether it satisfies. `values` is room for the values of nodes.
fn evaluate<I: Image>(image: &I, reading: &[u8], values: &mut [u8]) -> Result<usize, Refusal>
    requires { I.most_values ≤ length values.old }
    ensures { answer_of result ≡ answer (reading_rows (I.atoms_of image.now) reading.now) (yes (satisfies (reading_of reading.now) (I.formulas_of image.now))) }
{
    refusal::reading(reading, image.reading_length())?;
    Ok(usize::from(image.satisfied_by(reading, values)))
}

// Rows 9, 10 and 11 for a candidate of a checked image; the result is whether it is an answer set. `READING` and `VALUES` are the most bytes of a reading and the most nodes that have a value.
fn test<I: Image, const READING: usize, const VALUES: usize>(
    image: &I,
    candidate: &[u8],
) -> Result<usize, Refusal>
    requires reading_room { I.atoms_of image.now ≤ READING }
    requires values_room { I.most_values ≤ VALUES }
    requires rooms { (READING ≤ most_b) × (VALUES ≤ most_nodes) }
    ensures { answer_of result ≡ answer (candidate_rows (I.atoms_of image.now) candidate.now ++ (row11_true candidate.now ∷ [])) (yes (is_answer_set (I.atoms_of image.now) (I.formulas_of image.now) (set_of candidate.now))) }
{
    refusal::candidate(candidate, image.reading_length())?;
    let atoms = refusal::count_true(candidate);
    if refusal::MOST_TRUE < atoms {
        return Err(Refusal::TooManyAtoms { atoms });
    }
    let holds = stable::test::<I, READING, VALUES>(image, candidate);
    Ok(usize::from(holds))
}
