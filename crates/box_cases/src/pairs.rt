// Stories of two boxes, with slips of one put into the other.
use super::calls::{Call, Opening};
use super::checks::Checks;
use super::outcomes::Outcome;
use super::stories::Setting;
use censors::builtin::Builtin;
use desks::Desk;
use histories::data::Note;
use std::alloc::Global;

#[derive(Clone, Copy)]
pub enum PairCall {
    First(Call),
    Second(Call),
    // the first box is given the slip that the second handed out for the counterparty
    FirstTakes(usize),
    SecondTakes(usize),
}

#[derive(Clone, Copy)]
pub struct Pair {
    pub first: Opening,
    pub second: Opening,
}

pub struct PairDesks {
    first: Desk<Builtin>,
    second: Desk<Builtin>,
}

impl Setting for Pair {
    type Desks = PairDesks;

    type Call = PairCall;

    fn open(&self, checks: &mut Checks, what: &str) -> anyhow::Result<Option<PairDesks>> {
        let Some(first) = self.first.open(checks, what)? else {
            return Ok(None);
        };
        // A match, since the first box has to be closed on both ways out.
        let not_opened = match self.second.open(checks, what) {
            Ok(Some(second)) => return Ok(Some(PairDesks { first, second })),
            Ok(None) => Ok(None),
            Err(error) => Err(error),
        };
        first.close();
        not_opened
    }

    fn put(
        heap: Global,
        desks: &mut PairDesks,
        call: &PairCall,
        notes: &mut Vec<Note>,
    ) -> anyhow::Result<Outcome> {
        let PairDesks { first, second } = desks;
        match *call {
            PairCall::First(call) => call.put(heap, first, notes),
            PairCall::Second(call) => call.put(heap, second, notes),
            PairCall::FirstTakes(counterparty) => Ok(enter_from(first, second, counterparty)),
            PairCall::SecondTakes(counterparty) => Ok(enter_from(second, first, counterparty)),
        }
    }

    fn close(desks: PairDesks) {
        let PairDesks { first, second } = desks;
        second.close();
        first.close();
    }
}

fn enter_from(desk: &mut Desk<Builtin>, other: &mut Desk<Builtin>, counterparty: usize) -> Outcome {
    match desk.enter_from(other, counterparty) {
        Some(Ok(reply)) => Outcome::Replied(reply),
        Some(Err(refusal)) => Outcome::Refused(refusal),
        None => Outcome::NoSlip,
    }
}
