// The public calls, by the two letters that a script has for each.
use crate::words::Words;
use refusal::Refusal;

#[derive(Clone, Copy, Debug, PartialEq, Eq)]
pub enum Call {
    CheckTheory,
    EvaluateTheory,
    Translate,
    TranslatePacked,
    Extend,
    TestTheory,
    ListSets,
    CheckProgram,
    EvaluateProgram,
    TestProgram,
}

impl Call {
    // The call that has these letters.
    pub fn named(letters: &[u8]) -> Option<Call> {
        match letters {
            b"ct" => Some(Call::CheckTheory),
            b"et" => Some(Call::EvaluateTheory),
            b"tr" => Some(Call::Translate),
            b"tk" => Some(Call::TranslatePacked),
            b"ex" => Some(Call::Extend),
            b"tt" => Some(Call::TestTheory),
            b"ls" => Some(Call::ListSets),
            b"cp" => Some(Call::CheckProgram),
            b"ep" => Some(Call::EvaluateProgram),
            b"tp" => Some(Call::TestProgram),
            _ => None,
        }
    }

    // What the call gives; none where the words are not those that it takes.
    pub fn outcome(self, words: Words, out: &mut [u8]) -> Option<Result<usize, Refusal>> {
        let image = words.image;
        Some(match (self, words.reading, words.out) {
            (Call::CheckTheory, None, None) => rulebook::rulebook_check_theory(image),
            (Call::EvaluateTheory, Some(reading), None) => rulebook::rulebook_evaluate_theory(
                image, reading,
            ),
            (Call::Translate, None, Some(_)) => rulebook::rulebook_translate(image, false, out),
            (Call::TranslatePacked, None, Some(_)) => rulebook::rulebook_translate(
                image, true, out,
            ),
            (Call::Extend, Some(reading), Some(_)) => rulebook::rulebook_extend(
                image, reading, out,
            ),
            (Call::TestTheory, Some(reading), None) => rulebook::rulebook_test_theory(
                image, reading,
            ),
            (Call::ListSets, None, Some(_)) => rulebook::rulebook_list_sets(image, out),
            (Call::CheckProgram, None, None) => rulebook::rulebook_check_program(image),
            (Call::EvaluateProgram, Some(reading), None) => rulebook::rulebook_evaluate_program(
                image, reading,
            ),
            (Call::TestProgram, Some(reading), None) => rulebook::rulebook_test_program(
                image, reading,
            ),
            _ => return None,
        })
    }
}
