// Holds what boxes do on many calls to what the rules say.
#![tactic(auto)]

use checks::Checks;

mod amend_cases;
mod boxes;
mod calls;
mod checks;
mod enrol_cases;
mod enter_cases;
mod judge_cases;
mod limit_cases;
mod lists;
mod look_cases;
mod open_cases;
mod outcomes;
mod pairs;
mod run_cases;
mod stories;

fn main(rt: HostRuntime) -> anyhow::Result<()> {
    let mut checks = Checks::new(&rt);
    run(&mut checks)?;
    checks.conclude()
}

fn run(checks: &mut Checks) -> anyhow::Result<()> {
    checks.group("open", open_cases::run)?;
    checks.group("enrol", enrol_cases::run)?;
    checks.group("judge", judge_cases::run)?;
    checks.group("enter", enter_cases::run)?;
    checks.group("amend", amend_cases::run)?;
    checks.group("held and remaining", look_cases::run)?;
    checks.group("worked runs", run_cases::run)?;
    checks.group("slips of another box", enter_cases::run_pairs)?;
    checks.group("a full box", limit_cases::run)
}
