// Questions put one after the other, and what no counterparty can conclude from them.
ghost use Rattle.std.specs.Prelude.{◌≡◌};
ghost use Rattle.censors.specs.Replay.{final, Hides};

use super::censor::Censor;
use super::question::Question;
use sheets::SheetSet;

// The record that is left of `known` once the questions have been put in their order, where `sheet` is the true one.
// Under every censor, from a good record on, no secret is told by any questions.
pub fn replay<C: Censor>(
    censor: &C,
    known: &SheetSet,
    secrets: &[SheetSet],
    questions: &[Question],
    sheet: u16,
) -> SheetSet
    ensures is { result ≡ final (C.Censor.decided censor.now) (C.Censor.after censor.now) secrets.now known.now questions.now sheet }
    ensures hides { Hides (C.Censor.good censor.now) (C.Censor.decided censor.now) (C.Censor.after censor.now) }
{
    let mut left = *known;
    for question in questions {
        let decision = censor.decide(&left, secrets, question, question.value_in(sheet));
        left = censor.record_after(&left, secrets, question, decision.reply);
    }
    left
}
