// Judging a question.
ghost use Rattle.histories.specs.Calls.{Judge};
ghost use Rattle.querybox.specs.States.{Step, judged_as};

use super::super::entries::keep;
use super::super::slip::Slip;
use super::QueryBox;
use censors::censor::Censor;
use censors::question::Question;
use histories::data::{BoxFault, PLACES};
use sentences::reading::parse;

impl<C: Censor> QueryBox<C> {
    // The question is kept with the censor's decision on it, and the caller gets a slip. Record and log do not move.
    pub fn judge(&mut self, counterparty: usize, text: &[u8]) -> Result<Slip, BoxFault>
        ensures { Step C.Censor.good C.Censor.decided C.Censor.after self.old (Judge counterparty text.now) (judged_as result) self.new }
    {
        let party = self.party(counterparty)?;
        if party.pending.is_some() {
            return Err(BoxFault::SlipOut(counterparty));
        }
        let place = party.log.len();
        if place >= PLACES {
            return Err(BoxFault::LogFull);
        }
        let meaning = parse(&self.names, text).map_err(BoxFault::Question)?;
        let question = Question::new(meaning.sheets);
        let value = question.value_in(self.sheet);
        let decision = self
            .censor
            .decide(&party.known, party.secrets.sets(), &question, value);
        keep(&mut self.inner, counterparty, question, decision);
        Ok(Slip {
            number: self.number,
            counterparty,
            place,
        })
    }
}
