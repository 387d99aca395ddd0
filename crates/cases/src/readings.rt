// What a text is expected to be read as.
ghost use Rattle.std.specs.Prelude.{IfOk};
ghost use Rattle.cases.specs.Readings.{AnswersExpected};

use super::answers::{Answer, refused_at};
use std::alloc::{AllocError, Global};

#[derive(Clone, Copy)]
pub enum Reading {
    // the sheets in which the sentence is true, and the number of its tokens
    Sentence {
        sheets: &'static [u16],
        tokens: usize,
    },
    // no sentence, with the number of the refusal and the place
    Refused {
        number: u8,
        place: usize,
    },
}

impl Reading {
    pub(crate) fn answer(self, heap: Global) -> Result<Answer, AllocError>
        ensures { IfOk result (λ a. AnswersExpected self a) }
    {
        match self {
            Reading::Sentence { sheets, tokens } => {
                Ok(Answer::Meaning(sheets.to_vec(heap)?, tokens))
            }
            Reading::Refused { number, place } => Ok(Answer::Refused(refused_at(number, place))),
        }
    }
}
