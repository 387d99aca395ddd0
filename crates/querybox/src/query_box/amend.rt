// Amending the sheet.
ghost use Rattle.std.specs.Prelude.{◌≡◌, length, drop};
ghost use Rattle.histories.specs.Calls.{Amend, noted};
ghost use Rattle.querybox.specs.Amending.{amended_as, written};
ghost use Rattle.querybox.specs.States.{Step};

use super::super::changes::{amended_sheet, first_bad_change, first_slip_out};
use super::super::renewal::Renewal;
use super::super::rules::untrue_rule;
use super::QueryBox;
use censors::censor::Censor;
use histories::data::{AmendFault, BoxFault, Change, MOST_NOTES, Note};

impl<C: Censor> QueryBox<C> {
    // The listed facts get their new values; every log is judged again, and a note is written on each reply that has changed. The number of notes is returned.
    pub fn amend(&mut self, changes: &[Change], notes: &mut [Note]) -> Result<usize, BoxFault>
        ensures step { Step C.Censor.good C.Censor.decided C.Censor.after self.old (Amend changes.now (length notes.old)) (amended_as result notes.new) self.new }
        ensures number { written result ≡ length (noted (amended_as result notes.new)) }
        ensures rest { drop (written result) notes.new ≡ drop (written result) notes.old }
    {
        if let Some(counterparty) = first_slip_out(&self.inner) {
            return Err(BoxFault::SlipOut(counterparty));
        }
        if notes.len() < MOST_NOTES {
            return Err(BoxFault::ShortNotes);
        }
        let facts = self.names.count();
        if let Some(index) = first_bad_change(facts, changes) {
            return Err(AmendFault::Fact(index).into());
        }
        let sheet = amended_sheet(facts, self.sheet, changes);
        if let Some(index) = untrue_rule(&self.rules, sheet) {
            return Err(AmendFault::HouseRule(index).into());
        }
        let renewal = Renewal {
            censor: &self.censor,
            sheet,
        };
        let count = renewal.renew_all(&mut self.inner, notes);
        self.sheet = sheet;
        Ok(count)
    }
}
