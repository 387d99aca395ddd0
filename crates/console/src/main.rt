// Runs the calls of a script on two boxes, one call a line, and prints what each answers.
#![tactic(auto)]

use inputs::files::sources;

mod boxes;
mod closing;
mod command;
mod diary;
mod fields;
mod flaws;
mod lists;
mod numbers;
mod open_box;
mod outcome;
mod parse;
mod scan;
mod script;
mod show;
mod texts;
mod words;

fn main(rt: HostRuntime) -> anyhow::Result<()> {
    run(&rt)
}

// Each script that the arguments name, or standard input where they name none.
fn run(rt: &HostRuntime) -> anyhow::Result<()> {
    for source in sources(rt)? {
        let text = source.read(rt)?;
        script::run_script(rt, source.name(), text.as_slice())?;
    }
    Ok(())
}
