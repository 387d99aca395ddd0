// Setting up a desk, and closing it.
ghost use Rattle.std.specs.Prelude.{◌≡◌, ℕ, IfOk, None};
ghost use Rattle.desks.specs.Slots.{slip_at};

use super::Desk;
use super::entering::enter_kept;
use super::slots::Slots;
use censors::censor::Censor;
use querybox::query_box::QueryBox;
use std::alloc::{AllocError, Global};

impl<C: Censor + Drop> Desk<C> {
    // A desk that keeps no slip.
    pub fn new(heap: Global, query_box: QueryBox<C>) -> Result<Desk<C>, AllocError>
        ensures { IfOk result (λ d. (d.query_box ≡ query_box) × ((c : ℕ) → slip_at d.slips c ≡ None)) }
    {
        Ok(Desk {
            query_box,
            slips: Slots::new(heap)?,
        })
    }

    // Enters what is still kept, and lets the box go.
    pub fn close(self) {
        let Desk {
            mut query_box,
            slips: Slots { mut places },
        } = self;
        while let Some(kept) = places.pop() {
            enter_kept(&mut query_box, kept);
        }
        places.destroy_empty();
    }
}
