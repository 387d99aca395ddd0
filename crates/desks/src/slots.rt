// The slips that are kept, each at the place of its counterparty.
ghost use Rattle.std.specs.Prelude.{◌≡◌, ℕ, ◌<◌, length, Some, None, IfOk, slice_set};
ghost use Rattle.histories.specs.Refusals.{face_of};
ghost use Rattle.querybox.specs.Slips.{slip_of};
ghost use Rattle.desks.specs.Slots.{slip_at, without};

use histories::data::COUNTERPARTIES;
use histories::refusals::SlipFace;
use querybox::slip::{ReadSlip, Slip};
use std::alloc::{AllocError, Global};
use std::marker::Model;
use std::mem;

pub(crate) struct Slots {
    pub(crate) places: Vec<Option<Slip>>,
}

// Clauses see what is kept at each place.
impl Model for Slots {
    ghost use Rattle.std.specs.Prelude.{◌≡◌, List, Option, vec_len};
    ghost use Rattle.querybox.specs.declared.slip.Slip.{Slip};

    ghost Value = { List (Option Slip) };

    ghost view = { λ s. s.places.items };

    ghost invariant = { λ s. vec_len s.places ≡ 8 };
}

impl Slots {
    // Places that keep no slip.
    pub(crate) fn new(heap: Global) -> Result<Slots, AllocError>
        ensures eight { IfOk result (λ s. length s ≡ 8) }
        ensures empty { IfOk result (λ s. (c : ℕ) → slip_at s c ≡ None) }
    {
        let mut places = Vec::with_capacity(heap, COUNTERPARTIES)?;
        for _ in 0..COUNTERPARTIES {
            places.push_reserved(None);
        }
        Ok(Slots { places })
    }

    // Takes out the slip kept for the counterparty.
    pub(crate) fn take(&mut self, counterparty: usize) -> Option<Slip>
        ensures value { result ≡ slip_at self.old counterparty }
        ensures left { self.new ≡ without self.old counterparty }
    {
        self.places.get_mut(counterparty)?.take()
    }

    // Keeps the slip for its counterparty, where none is kept, and tells what is written on it.
    pub(crate) fn keep(&mut self, slip: Slip) -> SlipFace
        requires within { slip.counterparty < 8 }
        requires empty { slip_at self.old slip.counterparty ≡ None }
        ensures face { result ≡ face_of (slip_of slip) }
        ensures kept { self.new ≡ slice_set self.old slip.counterparty (Some slip) }
    {
        let ReadSlip {
            slip,
            counterparty,
            place,
        } = slip.read();
        match self.places[counterparty].replace(slip) {
            // a match, since an `assert` would have to let a slip go
            Some(_old) => unreachable(),
            None => SlipFace {
                counterparty,
                place,
            },
        }
    }

    // Exchanges what the two keep for the counterparty.
    pub(crate) fn exchange(&mut self, other: &mut Slots, counterparty: usize)
        requires { counterparty < 8 }
        ensures own { self.new ≡ slice_set self.old counterparty (slip_at other.old counterparty) }
        ensures others { other.new ≡ slice_set other.old counterparty (slip_at self.old counterparty) }
    {
        mem::swap(
            &mut self.places[counterparty],
            &mut other.places[counterparty],
        );
    }
}
