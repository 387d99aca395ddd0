// The two boxes of a script, and the calls made to them.
use super::command::{BoxCall, BoxName, Command, Opening};
use super::flaws::Flaw;
use super::open_box::OpenBox;
use super::outcome::{NotDone, Outcome};
use std::alloc::Global;
use std::io;

// A box is there once it is open.
pub(crate) struct Boxes {
    a: Option<OpenBox>,
    b: Option<OpenBox>,
}

impl Boxes {
    pub(crate) fn new() -> Boxes {
        Boxes { a: None, b: None }
    }

    // A box may not be let go, so no iterator takes the two.
    pub(crate) fn close(self) {
        let Boxes { a, b } = self;
        if let Some(a) = a {
            a.close();
        }
        if let Some(b) = b {
            b.close();
        }
    }

    // Makes the call of a line. Few calls need the heap or the line, so the two stay apart.
    pub(crate) fn call(
        &mut self,
        heap: Global,
        line: usize,
        command: &Command,
    ) -> Result<Outcome, Flaw<'static>> {
        let done = match command {
            Command::Open { target, opening } => self.open(heap, *target, opening),
            Command::EnterOther {
                target,
                counterparty,
            } => self.enter_other(*target, *counterparty),
            Command::Call { target, call } => self.call_open(heap, line, *target, call),
        };
        done.or_else(NotDone::answer)
    }

    // Does the same to each box that is open, a before b.
    pub(crate) fn each_open<F: FnMut(BoxName, &mut OpenBox) -> io::Result<()>>(
        &mut self,
        mut act: F,
    ) -> io::Result<()>
        requires { F.IsAlwaysCallable act }
    {
        if let Some(a) = self.a.as_mut() {
            act(BoxName::A, a)?;
        }
        if let Some(b) = self.b.as_mut() {
            act(BoxName::B, b)?;
        }
        Ok(())
    }

    fn slot(&mut self, name: BoxName) -> &mut Option<OpenBox> {
        match name {
            BoxName::A => &mut self.a,
            BoxName::B => &mut self.b,
        }
    }

    fn call_open(
        &mut self,
        heap: Global,
        line: usize,
        target: BoxName,
        call: &BoxCall,
    ) -> Result<Outcome, NotDone> {
        let opened = self.slot(target).as_mut().ok_or(Flaw::NotOpen(target))?;
        opened.call(heap, line, call)
    }

    fn open(
        &mut self,
        heap: Global,
        target: BoxName,
        opening: &Opening,
    ) -> Result<Outcome, NotDone> {
        if self.slot(target).is_some() {
            return Err(Flaw::OpenAlready(target).into());
        }
        self.open_new(heap, target, opening)
    }

    // Apart from the test before it, which so needs no room for a box; by `match`, since `?` would copy the box once more.
    fn open_new(
        &mut self,
        heap: Global,
        target: BoxName,
        opening: &Opening,
    ) -> Result<Outcome, NotDone> {
        match OpenBox::open(heap, opening) {
            Ok(opened) => {
                self.put(target, opened);
                Ok(Outcome::Opened)
            }
            Err(why) => Err(why),
        }
    }

    // A box may not be overwritten: what stood in the slot is closed.
    fn put(&mut self, target: BoxName, opened: OpenBox) {
        if let Some(before) = self.slot(target).replace(opened) {
            before.close();
        }
    }

    // Enters the slip that the other box keeps.
    fn enter_other(&mut self, target: BoxName, counterparty: usize) -> Result<Outcome, NotDone> {
        let a = self.a.as_mut().ok_or(Flaw::NotOpen(BoxName::A))?;
        let b = self.b.as_mut().ok_or(Flaw::NotOpen(BoxName::B))?;
        match target {
            BoxName::A => a.enter_from(b, counterparty),
            BoxName::B => b.enter_from(a, counterparty),
        }
    }
}
