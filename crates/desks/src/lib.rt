// A box with the slips that it has handed out: a program that takes calls from outside keeps them here until they are entered.
#![tactic(auto)]

ghost use Rattle.std.specs.Prelude.{◌≡◌, length};
ghost use Rattle.querybox.specs.States.{state_of};
ghost use Rattle.desks.specs.Slots.{AllOut};

use querybox::query_box::QueryBox;
use slots::Slots;

pub mod calls;
pub mod entering;
pub mod opening;
pub(crate) mod slots;

// A box, and at the place of each counterparty the slip that is out for it. Each slip that is kept is taken by the box.
// That there are eight places is said here too, since callers see no more of the slips than their list.
pub struct Desk<C> {
    query_box: QueryBox<C>,
    slips: Slots,
    ghost eight: { length slips ≡ 8 },
    ghost out: { AllOut query_box.number (state_of query_box).parties slips },
}
