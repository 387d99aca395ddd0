// Fills a box as its arguments say and amends it, so that the instructions of a call can be counted: docs/COST.md.
#![tactic(auto)]

mod fill;
mod plan;
mod texts;

fn main(rt: HostRuntime) -> anyhow::Result<()> {
    fill::run(&rt)
}
