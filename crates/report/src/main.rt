// Reads files of names and sentences, and prints what each sentence means or why it is refused,
// and what each censor would reply.
#![tactic(auto)]

use inputs::files::sources;
use line_report::report;

mod end_report;
mod file_report;
mod input;
mod line_report;
mod lists;
mod outlook;
mod refusals;
mod show;
mod start;

fn main(rt: HostRuntime) -> anyhow::Result<()> {
    for source in &sources(&rt)? {
        let text = source.read(&rt)?;
        report(&rt, source.name(), text.as_slice())?;
    }
    Ok(())
}
