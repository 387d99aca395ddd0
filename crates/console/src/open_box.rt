// One box that is open, with the slips that are out and the diary.
use super::command::{Amendment, BoxCall, Enrolment, Opening};
use super::diary::Diary;
use super::flaws::Flaw;
use super::outcome::{NotDone, Outcome};
use censors::builtin::Builtin;
use desks::Desk;
use histories::data::BLANK_NOTE;
use querybox::query_box::QueryBox;
use std::alloc::Global;

pub(crate) struct OpenBox {
    desk: Desk<Builtin>,
    pub(crate) diary: Diary,
}

impl OpenBox {
    pub(crate) fn open(heap: Global, opening: &Opening) -> Result<OpenBox, NotDone> {
        let names = opening.names.list()?;
        let rules = opening.rules.list()?;
        // By `match`: `?` would copy the box once more.
        match QueryBox::open(
            opening.censor,
            opening.number,
            &names,
            &rules,
            opening.sheet,
        ) {
            Ok(query_box) => Ok(OpenBox {
                desk: Desk::new(heap, query_box)?,
                diary: Diary::new(heap),
            }),
            Err(fault) => Err(fault.into()),
        }
    }

    // Enters what is still out, and lets the box go.
    pub(crate) fn close(self) {
        let OpenBox { desk, diary: _ } = self;
        desk.close();
    }

    // Makes the call; the line is that of the script.
    pub(crate) fn call(
        &mut self,
        heap: Global,
        line: usize,
        call: &BoxCall,
    ) -> Result<Outcome, NotDone> {
        match call {
            BoxCall::Enrol(enrolment) => self.enrol(heap, enrolment),
            BoxCall::Judge { counterparty, text } => {
                self.judge(heap, *counterparty, text.as_slice())
            }
            BoxCall::Read(counterparty) => Ok(self.read(*counterparty)?),
            BoxCall::Enter(counterparty) => Ok(self.enter(*counterparty)?),
            BoxCall::Amend(amendment) => self.amend(heap, line, amendment),
            BoxCall::Held {
                counterparty,
                place,
            } => Ok(self.held(*counterparty, *place)),
            BoxCall::Remaining(counterparty) => Ok(self.remaining(*counterparty)),
        }
    }

    fn enrol(&mut self, heap: Global, enrolment: &Enrolment) -> Result<Outcome, NotDone> {
        let prior = enrolment.prior.as_ref().map(|prior| prior.as_slice());
        let secrets = enrolment.secrets.list()?;
        let counterparty = self.desk.enrol(prior, &secrets)?;
        self.diary.enrol(heap)?;
        Ok(Outcome::Enrolled(counterparty))
    }

    fn judge(
        &mut self,
        heap: Global,
        counterparty: usize,
        text: &[u8],
    ) -> Result<Outcome, NotDone> {
        let kept = Vec::from_slice(heap, text)?;
        let face = self.desk.judge(counterparty, text)?;
        self.diary.judge(counterparty, kept);
        Ok(Outcome::Slip(face))
    }

    fn read(&mut self, counterparty: usize) -> Result<Outcome, Flaw<'static>> {
        let face = self.desk.read(counterparty).ok_or(Flaw::NoSlip)?;
        Ok(Outcome::Slip(face))
    }

    pub(crate) fn enter(&mut self, counterparty: usize) -> Result<Outcome, Flaw<'static>> {
        let reply = self.desk.enter(counterparty).ok_or(Flaw::NoSlip)?;
        self.diary.enter(counterparty)?;
        Ok(Outcome::Replied(reply))
    }

    // Enters the slip that the other box handed out.
    pub(crate) fn enter_from(
        &mut self,
        other: &mut OpenBox,
        counterparty: usize,
    ) -> Result<Outcome, NotDone> {
        let reply = self
            .desk
            .enter_from(&mut other.desk, counterparty)
            .ok_or(Flaw::NoSlip)??;
        self.diary.enter(counterparty)?;
        Ok(Outcome::Replied(reply))
    }

    fn amend(
        &mut self,
        heap: Global,
        line: usize,
        amendment: &Amendment,
    ) -> Result<Outcome, NotDone> {
        let mut notes = vec![in heap; BLANK_NOTE; amendment.notes_len]?;
        let count = self
            .desk
            .amend(amendment.changes.as_slice(), notes.as_mut_slice())?;
        for note in notes.iter().take(count) {
            self.diary.send(line, note)?;
        }
        Ok(Outcome::Amended(count))
    }

    pub(crate) fn held(&self, counterparty: usize, place: usize) -> Outcome {
        self.desk
            .held(counterparty, place)
            .map_or_else(Outcome::from, Outcome::Held)
    }

    pub(crate) fn remaining(&self, counterparty: usize) -> Outcome {
        self.desk
            .remaining(counterparty)
            .map_or_else(Outcome::from, Outcome::Remaining)
    }
}
