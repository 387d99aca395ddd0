// Holds the library's answers on many texts and lists to the answers that are expected.
#![tactic(auto)]

use anyhow::anyhow;
use checks::Checks;

mod answers;
mod checks;
mod count_cases;
mod cut_cases;
mod list_cases;
mod lists;
mod long_cases;
mod readings;
mod sentence_cases;

fn main(rt: HostRuntime) -> anyhow::Result<()> {
    run(&rt)
}

fn run(rt: &HostRuntime) -> anyhow::Result<()> {
    let names = lists::names_of(rt.alloc(), &["full", "late", "sold"])?;
    let mut checks = Checks::new(rt, names);
    sentence_cases::run(&mut checks)?;
    long_cases::run(&mut checks)?;
    count_cases::run(&mut checks)?;
    list_cases::run(&mut checks)?;
    cut_cases::run(&mut checks)?;
    let cases = checks.tally.cases;
    let wrong = checks.tally.wrong;
    println!(rt; "{cases} cases, {wrong} wrong")?;
    if wrong > 0 {
        return Err(anyhow!("some answers are not what is expected"));
    }
    Ok(())
}
