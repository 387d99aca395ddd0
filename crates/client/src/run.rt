// The calls on a box, one after the other, under each censor of the library.
use super::asking::ask;
use anyhow::{Context, anyhow};
use censors::builtin::{BUILTINS, Builtin};
use histories::data::{BLANK_NOTE, Change, MOST_NOTES};
use pieces::Pieces;
use querybox::query_box::QueryBox;

// A box, and a counterparty that is enrolled with it.
#[derive(Drop)]
struct Session<'a> {
    rt: &'a HostRuntime,
    query_box: QueryBox<Builtin>,
    counterparty: usize,
}

pub(crate) fn run(rt: &HostRuntime) -> anyhow::Result<()> {
    let names = Pieces::of(rt.alloc(), &["full", "late", "sold"])?;
    let rules = Pieces::new(rt.alloc());
    let secrets = Pieces::of(rt.alloc(), &["full & late"])?;
    let names = names.list().context("a list is too long")?;
    let rules = rules.list().context("a list is too long")?;
    let secrets = secrets.list().context("a list is too long")?;
    for censor in BUILTINS {
        let mut query_box = QueryBox::open(censor, 7, &names, &rules, 3).map_err(|_fault| anyhow!(
            "the box is not opened"
        ))?;
        let counterparty = query_box
            .enrol(None, &secrets)
            .map_err(|_fault| anyhow!("the counterparty is not enrolled"))?;
        let mut session = Session {
            rt,
            query_box,
            counterparty,
        };
        session.put_all()?;
        session.amend_full()?;
    }
    Ok(())
}

impl Session<'_> {
    fn put_all(&mut self) -> anyhow::Result<()> {
        let counterparty = self.counterparty;
        println!(self.rt; "counterparty {counterparty}:")?;
        for text in ["full", "late", "sold", "full", "late & ", "ship"] {
            match ask(&mut self.query_box, counterparty, text.as_bytes()) {
                Ok(replied) => {
                    let place = replied.place;
                    let reply = replied.reply;
                    println!(self.rt; "  {place} {text}: {reply}")?;
                }
                Err(_fault) => println!(self.rt; "  {text}: refused")?,
            }
        }
        self.print_left()
    }

    // Full becomes untrue.
    fn amend_full(&mut self) -> anyhow::Result<()> {
        let mut notes = [BLANK_NOTE; MOST_NOTES];
        let change = Change {
            fact: 0,
            value: false,
        };
        let count = self
            .query_box
            .amend(&[change], &mut notes)
            .map_err(|_fault| anyhow!("the amendment is turned down"))?;
        println!(self.rt; "  notes: {count}")?;
        for note in notes.iter().take(count) {
            let place = note.place;
            let reply = note.reply;
            println!(self.rt; "    {place}: {reply}")?;
        }
        self.print_left()
    }

    fn print_left(&self) -> anyhow::Result<()> {
        if let Ok(sheets) = self.query_box.remaining(self.counterparty) {
            println!(self.rt; "  sheets left: {sheets}")?;
        }
        if let Ok(Some(reply)) = self.query_box.held(self.counterparty, 0) {
            println!(self.rt; "  held at 0: {reply}")?;
        }
        Ok(())
    }
}
