// Calls on a box, as tables give them.
use super::lists::Listing;
use super::outcomes::{Outcome, YES};
use censors::builtin::Builtin;
use desks::Desk;
use histories::data::{BoxFault, Change, Note};
use querybox::query_box::QueryBox;
use std::alloc::{AllocError, Global};

// What a box is opened with.
#[derive(Clone, Copy)]
pub struct Opening {
    pub censor: Builtin,
    pub number: u8,
    pub names: Listing,
    pub rules: Listing,
    pub sheet: u16,
}

#[derive(Clone, Copy)]
pub enum Call {
    // the prior and the secrets
    Enrol(Option<&'static [u8]>, Listing),
    // the counterparty and the text
    Judge(usize, &'static [u8]),
    // the counterparty whose slip is entered
    Enter(usize),
    // the changes, and the length of the list for notes
    Amend(&'static [Change], usize),
    // looks at a note of the last amendment
    Note(usize),
    // counts the notes of the last amendment, from an index on, that are as they were handed in
    Unwritten(usize),
    // the counterparty and the place
    Held(usize, usize),
    // the counterparty
    Remaining(usize),
}

// A note to a counterparty that no box has: an amendment that leaves it alone has written no note there.
const UNWRITTEN: Note = Note {
    counterparty: 99,
    place: 99,
    reply: YES,
};

impl Opening {
    pub(crate) fn query_box(
        &self,
        heap: Global,
    ) -> anyhow::Result<Result<QueryBox<Builtin>, BoxFault>> {
        let names = self.names.pieces(heap)?;
        let rules = self.rules.pieces(heap)?;
        let names_list = self.names.list(&names)?;
        let rules_list = self.rules.list(&rules)?;
        Ok(QueryBox::open(
            self.censor,
            self.number,
            &names_list,
            &rules_list,
            self.sheet,
        ))
    }
}

impl Call {
    // Puts the call to the desk. `notes` is the list of the last amendment.
    pub(crate) fn put(
        &self,
        heap: Global,
        desk: &mut Desk<Builtin>,
        notes: &mut Vec<Note>,
    ) -> anyhow::Result<Outcome> {
        match *self {
            Call::Enrol(prior, secrets) => enrol(heap, desk, prior, secrets),
            Call::Judge(counterparty, text) => Ok(judge(desk, counterparty, text)),
            Call::Enter(counterparty) => Ok(enter(desk, counterparty)),
            Call::Amend(changes, room) => {
                *notes = unwritten_notes(heap, room)?;
                Ok(amend(desk, changes, notes.as_mut_slice()))
            }
            Call::Note(index) => Ok(note_at(notes.as_slice(), index)),
            Call::Unwritten(from) => Ok(unwritten(notes.as_slice(), from)),
            Call::Held(counterparty, place) => Ok(held(desk, counterparty, place)),
            Call::Remaining(counterparty) => Ok(remaining(desk, counterparty)),
        }
    }
}

pub(crate) fn enrol(
    heap: Global,
    desk: &mut Desk<Builtin>,
    prior: Option<&[u8]>,
    secrets: Listing,
) -> anyhow::Result<Outcome> {
    let pieces = secrets.pieces(heap)?;
    let list = secrets.list(&pieces)?;
    Ok(
        desk.enrol(prior, &list)
            .map_or_else(Outcome::from, Outcome::Enrolled),
    )
}

pub(crate) fn judge(desk: &mut Desk<Builtin>, counterparty: usize, text: &[u8]) -> Outcome {
    desk.judge(counterparty, text)
        .map_or_else(Outcome::from, |face| {
            Outcome::Judged(face.counterparty, face.place)
        })
}

pub(crate) fn enter(desk: &mut Desk<Builtin>, counterparty: usize) -> Outcome {
    desk.enter(counterparty)
        .map_or(Outcome::NoSlip, Outcome::Replied)
}

pub(crate) fn amend(desk: &mut Desk<Builtin>, changes: &[Change], notes: &mut [Note]) -> Outcome {
    desk.amend(changes, notes)
        .map_or_else(Outcome::from, Outcome::Amended)
}

pub(crate) fn held(desk: &Desk<Builtin>, counterparty: usize, place: usize) -> Outcome {
    desk.held(counterparty, place)
        .map_or_else(Outcome::from, Outcome::Held)
}

pub(crate) fn remaining(desk: &Desk<Builtin>, counterparty: usize) -> Outcome {
    desk.remaining(counterparty)
        .map_or_else(Outcome::from, Outcome::Remaining)
}

pub(crate) fn unwritten_notes(heap: Global, room: usize) -> Result<Vec<Note>, AllocError> {
    vec![in heap; UNWRITTEN; room]
}

pub(crate) fn note_at(notes: &[Note], index: usize) -> Outcome {
    notes
        .get(index)
        .copied()
        .map_or(Outcome::NoNote, Outcome::from)
}

// How many notes, from an index on, are as they were handed in.
pub(crate) fn unwritten(notes: &[Note], from: usize) -> Outcome {
    let count = notes
        .iter()
        .skip(from)
        .filter(|note| **note == UNWRITTEN)
        .count();
    Outcome::Unwritten(count)
}
