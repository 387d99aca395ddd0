// Entering a question that was judged.
ghost use Rattle.histories.specs.Calls.{Enter};
ghost use Rattle.querybox.specs.States.{Step, entered_as};
ghost use Rattle.querybox.specs.Slips.{slip_of};

use super::super::entries::append;
use super::super::slip::Slip;
use super::QueryBox;
use censors::censor::Censor;
use censors::question::Reply;

impl<C: Censor> QueryBox<C> {
    // Question and reply go into the log, the record becomes the censor's new one, and only then is the reply given out.
    // A slip that does not match is handed back: by `let .. else`, since a combinator would have to let it go.
    pub fn enter(&mut self, slip: Slip) -> Result<Reply, Slip>
        ensures { Step C.Censor.good C.Censor.decided C.Censor.after self.old (Enter (slip_of slip)) (entered_as result) self.new }
    {
        let Ok(party) = self.party(slip.counterparty) else {
            return Err(slip);
        };
        if slip.number != self.number || slip.place != party.log.len() {
            return Err(slip);
        }
        let Some(pending) = party.pending else {
            return Err(slip);
        };
        let reply = pending.decision.reply;
        let known = self.censor.record_after(
            &party.known,
            party.secrets.sets(),
            &pending.question,
            reply,
        );
        append(&mut self.inner, slip.spend(), known);
        Ok(reply)
    }
}
