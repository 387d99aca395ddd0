// A client of a box: opens it, enrols a counterparty, puts questions, amends the sheet, and prints what is told.
#![tactic(auto)]

mod asking;
mod run;

fn main(rt: HostRuntime) -> anyhow::Result<()> {
    run::run(&rt)
}
