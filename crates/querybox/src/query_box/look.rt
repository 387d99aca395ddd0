// Looking up what a counterparty has.
ghost use Rattle.std.specs.Prelude.{◌≡◌};
ghost use Rattle.querybox.specs.Looking.{found_as, found_in, FoundAt, held_in, remaining_in};
ghost use Rattle.querybox.specs.States.{state_of};

use super::super::party::Party;
use super::QueryBox;
use censors::censor::Censor;
use censors::question::Reply;
use histories::data::BoxFault;

impl<C: Censor> QueryBox<C> {
    // The reply that stands at a place of the counterparty's log, or nothing if no question is entered there.
    pub fn held(&self, counterparty: usize, place: usize) -> Result<Option<Reply>, BoxFault>
        ensures { result ≡ held_in (state_of self.now) counterparty place }
    {
        let party = self.party(counterparty)?;
        Ok(party.log.as_slice().get(place).map(|entry| entry.reply))
    }

    // How many sheets the counterparty's record has.
    pub fn remaining(&self, counterparty: usize) -> Result<u16, BoxFault>
        ensures { result ≡ remaining_in (state_of self.now) counterparty }
    {
        Ok(self.party(counterparty)?.known.count())
    }

    // What is kept of the counterparty.
    pub(crate) fn party(&self, counterparty: usize) -> Result<Party, BoxFault>
        ensures is { found_as result ≡ found_in (state_of self.now) counterparty }
        ensures entry { FoundAt self.now.inner counterparty result }
    {
        self.inner
            .get(counterparty)
            .ok_or(BoxFault::NoCounterparty(counterparty))
    }
}
