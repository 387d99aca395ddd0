// The cases that are checked, with the names that their texts are read with.
ghost use Rattle.std.specs.Prelude.{◌≡◌, ◌+◌, ◌-◌, ◌^◌, ◌≤◌, if◌then◌else◌, IfOk, min};

use super::answers::Answer;
use super::readings::Reading;
use sentences::names::Names;
use sentences::reading::parse;
use std::alloc::Global;
use std::io;
use tallies::Tally;

#[derive(Drop)]
pub struct Checks<'a> {
    pub(crate) rt: &'a HostRuntime,
    pub(crate) names: Names,
    pub(crate) tally: Tally,
}

impl<'a> Checks<'a> {
    pub(crate) fn new(rt: &'a HostRuntime, names: Names) -> Checks<'a>
        ensures cases { result.tally.cases ≡ 0 }
        ensures wrong { result.tally.wrong ≡ 0 }
        ensures names { result.names ≡ names }
    {
        Checks {
            rt,
            names,
            tally: Tally::new(),
        }
    }

    pub(crate) fn heap(&self) -> Global {
        self.rt.alloc()
    }

    // Prints the case and counts it.
    pub(crate) fn compare(&mut self, what: &str, expected: &Answer, got: &Answer) -> io::Result<()>
        ensures cases { self.new.tally.cases ≡ min (self.old.tally.cases + 1) (2 ^ 64 - 1) }
        ensures wrong { self.old.tally.wrong ≤ self.new.tally.wrong }
        ensures right { expected.now ≡ got.now → self.new.tally.wrong ≡ self.old.tally.wrong }
        ensures counted { self.new.tally.wrong ≡ (if ⟦<Answer as PartialEq>⟧.eq expected.now got.now then self.old.tally.wrong else min (self.old.tally.wrong + 1) (2 ^ 64 - 1)) }
    {
        let verdict = if self.tally.compare(expected, got) {
            "ok"
        } else {
            "wrong"
        };
        println!(self.rt; "{what}: expected {expected}; got {got}; {verdict}")
    }

    // Reads the text and compares the answer.
    pub(crate) fn check_text(
        &mut self,
        what: &str,
        text: &[u8],
        expected: Reading,
    ) -> anyhow::Result<()>
        ensures cases { IfOk result (λ _. self.new.tally.cases ≡ min (self.old.tally.cases + 1) (2 ^ 64 - 1)) }
        ensures wrong { self.old.tally.wrong ≤ self.new.tally.wrong }
    {
        let heap = self.heap();
        let expected = expected.answer(heap)?;
        let got = Answer::of_sentence(heap, parse(&self.names, text))?;
        self.compare(what, &expected, &got)?;
        Ok(())
    }
}
