// Stories: boxes are opened and calls are put to them in order, each with what is expected of it.
use super::calls::{Call, Opening};
use super::checks::Checks;
use super::outcomes::{Expected, Outcome};
use censors::builtin::Builtin;
use desks::Desk;
use histories::data::Note;
use std::alloc::Global;

// What the boxes of a story are opened with.
pub trait Setting {
    // the boxes while they are open
    type Desks;

    type Call;

    // Opens the boxes. One that is not opened counts as wrong.
    fn open(&self, checks: &mut Checks, what: &str) -> anyhow::Result<Option<Self::Desks>>;

    // Puts the call to the boxes. `notes` is the list of the last amendment.
    fn put(
        heap: Global,
        desks: &mut Self::Desks,
        call: &Self::Call,
        notes: &mut Vec<Note>,
    ) -> anyhow::Result<Outcome>;

    fn close(desks: Self::Desks);
}

#[derive(Clone, Copy)]
pub struct Step<C> {
    pub call: C,
    pub expected: Expected,
}

// C is the calls of the setting: a constant cannot yet borrow a type that holds `S::Call`.
#[derive(Clone, Copy)]
pub struct Story<'a, S, C> {
    pub what: &'a str,
    pub opening: S,
    pub steps: &'a [Step<C>],
}

impl<S: Setting> Story<'_, S, S::Call> {
    fn run(&self, checks: &mut Checks) -> anyhow::Result<()> {
        let Some(mut desks) = self.opening.open(checks, self.what)? else {
            return Ok(());
        };
        let done = self.run_steps(checks, &mut desks);
        S::close(desks);
        done
    }

    fn run_steps(&self, checks: &mut Checks, desks: &mut S::Desks) -> anyhow::Result<()> {
        let mut notes: Vec<Note> = Vec::new(checks.heap());
        for (index, step) in self.steps.iter().enumerate() {
            let got = S::put(checks.heap(), desks, &step.call, &mut notes)?;
            checks.compare(self.what, index, step.expected.outcome(), got)?;
        }
        Ok(())
    }
}

pub(crate) fn run_all<S: Setting>(
    checks: &mut Checks,
    stories: &[Story<S, S::Call>],
) -> anyhow::Result<()> {
    for story in stories {
        story.run(checks)?;
    }
    Ok(())
}

// A story of one box.
impl Setting for Opening {
    type Desks = Desk<Builtin>;

    type Call = Call;

    fn open(&self, checks: &mut Checks, what: &str) -> anyhow::Result<Option<Desk<Builtin>>> {
        match self.query_box(checks.heap())? {
            Ok(query_box) => Ok(Some(Desk::new(checks.heap(), query_box)?)),
            Err(fault) => {
                checks.compare(what, 0, Outcome::Opened, Outcome::from(fault))?;
                Ok(None)
            }
        }
    }

    fn put(
        heap: Global,
        desk: &mut Desk<Builtin>,
        call: &Call,
        notes: &mut Vec<Note>,
    ) -> anyhow::Result<Outcome> {
        call.put(heap, desk, notes)
    }

    fn close(desk: Desk<Builtin>) {
        desk.close();
    }
}
