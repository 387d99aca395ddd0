// The checks of a group, and how many of them come out wrong.
use super::outcomes::Outcome;
use anyhow::anyhow;
use std::alloc::Global;
use tallies::Tally;

#[derive(Drop)]
pub struct Checks<'a> {
    rt: &'a HostRuntime,
    tally: Tally,
}

impl<'a> Checks<'a> {
    pub(crate) fn new(rt: &'a HostRuntime) -> Checks<'a> {
        Checks {
            rt,
            tally: Tally::new(),
        }
    }

    pub(crate) fn heap(&self) -> Global {
        self.rt.alloc()
    }

    // Counts a check, and prints it if it comes out wrong.
    pub(crate) fn compare(
        &mut self,
        what: &str,
        step: usize,
        expected: Outcome,
        got: Outcome,
    ) -> anyhow::Result<()> {
        if !self.tally.compare(&expected, &got) {
            println!(self.rt; "{what}, step {step}: expected {expected:?}; got {got:?}")?;
        }
        Ok(())
    }

    // Checks a group, prints how many of its checks came out right, and adds them.
    pub(crate) fn group<F: FnOnce(&mut Checks<'a>) -> anyhow::Result<()>>(
        &mut self,
        name: &str,
        check: F,
    ) -> anyhow::Result<()>
        requires { F.IsAlwaysCallable check }
    {
        let mut part = Checks::new(self.rt);
        check(&mut part)?;
        let checks = part.tally.cases;
        let right = part.tally.right();
        println!(self.rt; "{name}: {right} of {checks} as expected")?;
        self.tally.add(part.tally);
        Ok(())
    }

    // Prints how many checks there were; some that are wrong are an error.
    pub(crate) fn conclude(self) -> anyhow::Result<()> {
        let checks = self.tally.cases;
        let wrong = self.tally.wrong;
        println!(self.rt; "{checks} checks, {wrong} wrong")?;
        if wrong > 0 {
            return Err(anyhow!("some calls do not do what is expected"));
        }
        Ok(())
    }
}
