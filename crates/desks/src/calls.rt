// The calls that put no slip in.
ghost use Rattle.std.specs.Prelude.{◌≡◌, length, drop, Some};
ghost use Rattle.histories.specs.Calls.{Enrol, Judge, Amend, noted, outcome as outcome_of};
ghost use Rattle.querybox.specs.Amending.{amended_as, written};
ghost use Rattle.querybox.specs.Enrolling.{prior_text, enrolled_as};
ghost use Rattle.querybox.specs.Looking.{held_in, remaining_in};
ghost use Rattle.querybox.specs.States.{state_of, house_of, Step};
ghost use Rattle.desks.specs.Answers.{face_given, with_judged, face_kept};
ghost use Rattle.desks.specs.Slots.{slip_at};

use super::Desk;
use censors::censor::Censor;
use censors::question::Reply;
use histories::data::{BoxFault, Change, Note};
use histories::refusals::SlipFace;
use sentences::cuts::CutList;

impl<C: Censor> Desk<C> {
    pub fn enrol(&mut self, prior: Option<&[u8]>, secrets: &CutList) -> Result<usize, BoxFault>
        ensures step { Step C.Censor.good C.Censor.decided C.Censor.after self.old.query_box (Enrol (prior_text prior.entry) secrets.now) (enrolled_as result) self.new.query_box }
        ensures slips { self.new.slips ≡ self.old.slips }
    {
        self.query_box.enrol(prior, secrets)
    }

    // The slip is kept, and what is written on it is given.
    pub fn judge(&mut self, counterparty: usize, text: &[u8]) -> Result<SlipFace, BoxFault>
        ensures answers { Some result ≡ face_given (outcome_of (house_of C.Censor.good C.Censor.decided C.Censor.after self.old.query_box) (state_of self.old.query_box) (Judge counterparty text.now)) }
        ensures step { Step C.Censor.good C.Censor.decided C.Censor.after self.old.query_box (Judge counterparty text.now) (outcome_of (house_of C.Censor.good C.Censor.decided C.Censor.after self.old.query_box) (state_of self.old.query_box) (Judge counterparty text.now)) self.new.query_box }
        ensures slips { self.new.slips ≡ with_judged self.old.slips (outcome_of (house_of C.Censor.good C.Censor.decided C.Censor.after self.old.query_box) (state_of self.old.query_box) (Judge counterparty text.now)) }
    {
        let slip = self.query_box.judge(counterparty, text)?;
        Ok(self.slips.keep(slip))
    }

    // What is written on the slip that is kept for the counterparty, if there is one. It is kept on.
    pub fn read(&mut self, counterparty: usize) -> Option<SlipFace>
        ensures answers { result ≡ face_kept (slip_at self.old.slips counterparty) }
        ensures leaves { self.new.query_box ≡ self.old.query_box }
        ensures slips { self.new.slips ≡ self.old.slips }
    {
        let slip = self.slips.take(counterparty)?;
        Some(self.slips.keep(slip))
    }

    pub fn amend(&mut self, changes: &[Change], notes: &mut [Note]) -> Result<usize, BoxFault>
        ensures step { Step C.Censor.good C.Censor.decided C.Censor.after self.old.query_box (Amend changes.now (length notes.old)) (amended_as result notes.new) self.new.query_box }
        ensures number { written result ≡ length (noted (amended_as result notes.new)) }
        ensures rest { drop (written result) notes.new ≡ drop (written result) notes.old }
        ensures slips { self.new.slips ≡ self.old.slips }
    {
        self.query_box.amend(changes, notes)
    }

    pub fn held(&self, counterparty: usize, place: usize) -> Result<Option<Reply>, BoxFault>
        ensures { result ≡ held_in (state_of self.now.query_box) counterparty place }
    {
        self.query_box.held(counterparty, place)
    }

    pub fn remaining(&self, counterparty: usize) -> Result<u16, BoxFault>
        ensures { result ≡ remaining_in (state_of self.now.query_box) counterparty }
    {
        self.query_box.remaining(counterparty)
    }
}
