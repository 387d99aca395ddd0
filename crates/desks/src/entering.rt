// Entering slips that are kept.
ghost use Rattle.std.specs.Prelude.{◌≡◌, true, if◌then◌else◌, slice_set};
ghost use Rattle.querybox.specs.States.{state_of, house_of};
ghost use Rattle.desks.specs.Answers.{replied, is_taken, entry_of, Entered};
ghost use Rattle.desks.specs.Slots.{slip_at, without, is_awaited};

use super::Desk;
use censors::censor::Censor;
use censors::question::Reply;
use histories::refusals::BoxRefusal;
use querybox::query_box::QueryBox;
use querybox::slip::Slip;

impl<C: Censor> Desk<C> {
    // Enters the slip that is kept for the counterparty, if there is one.
    pub fn enter(&mut self, counterparty: usize) -> Option<Reply>
        ensures answers { replied result ≡ entry_of (house_of C.Censor.good C.Censor.decided C.Censor.after self.old.query_box) (state_of self.old.query_box) (slip_at self.old.slips counterparty) }
        ensures enters { Entered C.Censor.good C.Censor.decided C.Censor.after self.old.query_box (slip_at self.old.slips counterparty) self.new.query_box }
        ensures slips { self.new.slips ≡ without self.old.slips counterparty }
    {
        let kept = self.slips.take(counterparty);
        enter_kept(&mut self.query_box, kept)
    }

    // Puts the slip that the other desk keeps for the counterparty, if there is one, into this box.
    // Where this box takes it, its own slip for that counterparty says the same, and goes to the other desk.
    pub fn enter_from(
        &mut self,
        other: &mut Desk<C>,
        counterparty: usize,
    ) -> Option<Result<Reply, BoxRefusal>>
        ensures answers { result ≡ entry_of (house_of C.Censor.good C.Censor.decided C.Censor.after self.old.query_box) (state_of self.old.query_box) (slip_at other.old.slips counterparty) }
        ensures enters { Entered C.Censor.good C.Censor.decided C.Censor.after self.old.query_box (slip_at other.old.slips counterparty) self.new.query_box }
        ensures other { other.new.query_box ≡ other.old.query_box }
        ensures slips { self.new.slips ≡ (if is_taken result then without self.old.slips counterparty else self.old.slips) }
        ensures others { other.new.slips ≡ (if is_taken result then slice_set other.old.slips counterparty (slip_at self.old.slips counterparty) else other.old.slips) }
    {
        let slip = other.slips.take(counterparty)?;
        match self.query_box.enter(slip) {
            Ok(reply) => {
                self.slips.exchange(&mut other.slips, counterparty);
                Some(Ok(reply))
            }
            Err(slip) => Some(Err(other.slips.keep(slip).refusal())),
        }
    }
}

// Enters a slip that the box awaits, if there is one.
pub(super) fn enter_kept<C: Censor>(
    query_box: &mut QueryBox<C>,
    kept: Option<Slip>,
) -> Option<Reply>
    requires { is_awaited query_box.old.number (state_of query_box.old).parties kept ≡ true }
    ensures answers { replied result ≡ entry_of (house_of C.Censor.good C.Censor.decided C.Censor.after query_box.old) (state_of query_box.old) kept }
    ensures enters { Entered C.Censor.good C.Censor.decided C.Censor.after query_box.old kept query_box.new }
{
    match query_box.enter(kept?) {
        Ok(reply) => Some(reply),
        // a match, since an `unwrap` would have to let a slip go
        Err(_slip) => unreachable(),
    }
}
