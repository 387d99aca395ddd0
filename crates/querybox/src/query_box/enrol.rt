// Enrolling a counterparty.
ghost use Rattle.std.specs.Prelude.{◌≡◌};
ghost use Rattle.histories.specs.Calls.{Enrol, start_from};
ghost use Rattle.querybox.specs.Enrolling.{prior_text, enrolled_as};
ghost use Rattle.querybox.specs.States.{house_of, Step};

use super::super::party::Party;
use super::super::rules::lawful_sheets;
use super::QueryBox;
use censors::censor::Censor;
use histories::data::{BoxFault, COUNTERPARTIES};
use sentences::cuts::CutList;
use sentences::lists::SentenceList;
use sentences::reading::parse;
use sheets::SheetSet;

impl<C: Censor> QueryBox<C> {
    // The counterparty gets the next place, if the record that it starts from is good for its secrets.
    pub fn enrol(&mut self, prior: Option<&[u8]>, secrets: &CutList) -> Result<usize, BoxFault>
        ensures { Step C.Censor.good C.Censor.decided C.Censor.after self.old (Enrol (prior_text prior.entry) secrets.now) (enrolled_as result) self.new }
    {
        let place = self.inner.count;
        if place >= COUNTERPARTIES {
            return Err(BoxFault::Full);
        }
        let start = self.start_from(prior)?;
        let secrets = SentenceList::secrets(&self.names, secrets).map_err(BoxFault::Secrets)?;
        if !self.censor.is_good(&start, secrets.sets()) {
            return Err(BoxFault::NotGood);
        }
        self.inner.add(Party::new(start, secrets));
        Ok(place)
    }

    // The sheets that make all house rules and the prior true.
    fn start_from(&self, prior: Option<&[u8]>) -> Result<SheetSet, BoxFault>
        ensures { result ≡ start_from (house_of C.Censor.good C.Censor.decided C.Censor.after self.now) (prior_text prior.entry) }
    {
        let lawful = lawful_sheets(&self.names, &self.rules);
        let Some(text) = prior else {
            return Ok(lawful);
        };
        let meaning = parse(&self.names, text).map_err(BoxFault::Prior)?;
        Ok(lawful.meet(&meaning.sheets))
    }
}
