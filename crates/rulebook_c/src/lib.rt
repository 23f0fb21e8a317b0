//! The public calls, exported to C as `include/rulebook.h` declares them: each is the call of `rulebook` that has its name.
#![tactic(auto)]

ghost use Rattle.rulebook.specs.Calls.{ChecksTheory, EvaluatesTheory, Translates, ExtendsReading, TestsTheory, ListsSets, ChecksProgram, EvaluatesProgram, TestsProgram};

use refusal::Answer;

#[unsafe(no_mangle)]
pub extern "C" fn rulebook_check_theory(theory: &[u8]) -> Answer
    ensures { ChecksTheory theory.now result }
{
    Answer::from(rulebook::rulebook_check_theory(theory))
}

#[unsafe(no_mangle)]
pub extern "C" fn rulebook_evaluate_theory(theory: &[u8], reading: &[u8]) -> Answer
    ensures { EvaluatesTheory theory.now reading.now result }
{
    Answer::from(rulebook::rulebook_evaluate_theory(theory, reading))
}

#[unsafe(no_mangle)]
pub extern "C" fn rulebook_translate(theory: &[u8], packed: bool, out: &mut [u8]) -> Answer
    ensures { Translates theory.now packed out.old result out.new }
{
    Answer::from(rulebook::rulebook_translate(theory, packed, out))
}

#[unsafe(no_mangle)]
pub extern "C" fn rulebook_extend(theory: &[u8], reading: &[u8], out: &mut [u8]) -> Answer
    ensures { ExtendsReading theory.now reading.now out.old result out.new }
{
    Answer::from(rulebook::rulebook_extend(theory, reading, out))
}

#[unsafe(no_mangle)]
pub extern "C" fn rulebook_test_theory(theory: &[u8], candidate: &[u8]) -> Answer
    ensures { TestsTheory theory.now candidate.now result }
{
    Answer::from(rulebook::rulebook_test_theory(theory, candidate))
}

#[unsafe(no_mangle)]
pub extern "C" fn rulebook_list_sets(theory: &[u8], out: &mut [u8]) -> Answer
    ensures { ListsSets theory.now out.old result out.new }
{
    Answer::from(rulebook::rulebook_list_sets(theory, out))
}

#[unsafe(no_mangle)]
pub extern "C" fn rulebook_check_program(program: &[u8]) -> Answer
    ensures { ChecksProgram program.now result }
{
    Answer::from(rulebook::rulebook_check_program(program))
}

#[unsafe(no_mangle)]
pub extern "C" fn rulebook_evaluate_program(program: &[u8], reading: &[u8]) -> Answer
    ensures { EvaluatesProgram program.now reading.now result }
{
    Answer::from(rulebook::rulebook_evaluate_program(program, reading))
}

#[unsafe(no_mangle)]
pub extern "C" fn rulebook_test_program(program: &[u8], candidate: &[u8]) -> Answer
    ensures { TestsProgram program.now candidate.now result }
{
    Answer::from(rulebook::rulebook_test_program(program, candidate))
}
