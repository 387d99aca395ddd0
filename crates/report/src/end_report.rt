// The end of a file's report: its lists, what the censors would do, and a summary.
use super::line_report::Reporter;
use super::lists::{Unread, house_rules_in, secrets_in};
use super::outlook::print_outlook;
use super::start::sheets_of;
use sentences::lists::SentenceList;
use sentences::names::Names;
use std::io;

impl Reporter<'_, '_> {
    pub(crate) fn end(&self) -> io::Result<()> {
        self.lists()?;
        self.censors()?;
        self.summary()
    }

    fn lists(&self) -> io::Result<()> {
        match self.so_far.naming {
            None => println!(self.rt; "no lists, since there are no names"),
            Some(Err(_)) => {
                let skipped = self.so_far.skipped;
                println!(self.rt; "sentences skipped, since the names are refused: {skipped}")
            }
            Some(Ok(names)) => self.lists_with(&names),
        }
    }

    // The lists as a box would take them.
    fn lists_with(&self, names: &Names) -> io::Result<()> {
        println!(self.rt; "lists:")?;
        let rules = house_rules_in(&self.so_far.rules, names);
        print_list(self.rt, "house rules", &rules)?;
        if let Ok(rules) = rules {
            print_keeping(self.rt, names, &rules)?;
        }
        print_list(self.rt, "secrets", &secrets_in(&self.so_far.secrets, names))
    }

    fn censors(&self) -> io::Result<()> {
        match self.so_far.opening() {
            Ok(opening) => print_outlook(self.rt, &opening, self.so_far.asked.as_slice()),
            Err(why) => println!(self.rt; "no censors, since {why}"),
        }
    }

    fn summary(&self) -> io::Result<()> {
        let accepted = self.so_far.accepted;
        let refused = self.so_far.refused;
        let bad_lines = self.so_far.bad_lines;
        println!(self.rt;
            "summary: sentences accepted {accepted}, refused {refused}; bad lines {bad_lines}"
        )
    }
}

fn print_keeping(rt: &HostRuntime, names: &Names, rules: &SentenceList) -> io::Result<()> {
    let kept = rules.keeping(names).count();
    let all = sheets_of(names).count();
    println!(rt; "  sheets that keep every house rule: {kept} of {all}")
}

fn print_list(rt: &HostRuntime, what: &str, list: &Result<SentenceList, Unread>) -> io::Result<()> {
    match list {
        Ok(list) => {
            let count = list.sets().len();
            println!(rt; "  {what}: accepted, count {count}")
        }
        Err(why) => println!(rt; "  {what}: {why}"),
    }
}
