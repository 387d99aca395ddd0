// Slips.
ghost use Rattle.std.specs.Prelude.{◌≡◌};
ghost use Rattle.histories.specs.Calls.{House, State, Read, outcome as outcome_of};
ghost use Rattle.querybox.specs.Slips.{slip_of, read_of, read_as};

// The receipt for a question that was judged. It can be neither copied nor let go: it has to be entered.
pub struct Slip {
    pub(crate) number: u8,
    pub(crate) counterparty: usize,
    pub(crate) place: usize,
}

// A slip, and what can be read on it.
pub struct ReadSlip {
    pub slip: Slip,
    pub counterparty: usize,
    pub place: usize,
}

impl Slip {
    // The slip is given back with its counterparty and its place.
    pub fn read(self) -> ReadSlip
        ensures is { result ≡ read_of self }
        ensures answers { (h : House) (st : State) → read_as result ≡ outcome_of h st (Read (slip_of self)) }
    {
        let counterparty = self.counterparty;
        let place = self.place;
        ReadSlip {
            slip: self,
            counterparty,
            place,
        }
    }

    // The slip is gone, and its counterparty is left.
    pub(crate) fn spend(self) -> usize
        ensures { result ≡ self.counterparty }
    {
        let Slip {
            number: _,
            counterparty,
            place: _,
        } = self;
        counterparty
    }
}
