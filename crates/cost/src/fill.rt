// A run: a box is opened, filled and amended, and what it holds is printed.
use super::plan::Plan;
use super::texts::{PRIOR, Texts};
use anyhow::{Context, anyhow};
use censors::builtin::Builtin;
use desks::Desk;
use histories::data::{BLANK_NOTE, Change, MOST_NOTES, Note, PLACES};
use pieces::Pieces;
use querybox::query_box::QueryBox;
use std::mem;

pub(crate) fn run(rt: &HostRuntime) -> anyhow::Result<()> {
    let plan = Plan::from_args(rt)?;
    let texts = Texts {
        heap: rt.alloc(),
        plan: &plan,
    };
    let mut desk = open(&texts)?;
    let result = fill(rt, &texts, &mut desk);
    desk.close();
    result
}

fn fill(rt: &HostRuntime, texts: &Texts, desk: &mut Desk<Builtin>) -> anyhow::Result<()> {
    enrol_all(texts, desk)?;
    let entered = put_all(texts, desk)?;
    let notes = amend_all(texts.plan, desk)?;
    let bytes = mem::size_of::<QueryBox<Builtin>>();
    println!(rt; "a box has {bytes} bytes")?;
    println!(rt; "questions entered: {entered}")?;
    println!(rt; "notes: {notes}")?;
    print_counterparties(rt, texts.plan, desk)
}

fn open(texts: &Texts) -> anyhow::Result<Desk<Builtin>> {
    let names = texts.names()?;
    let rules = Pieces::new(texts.heap);
    let names = names.list().context("a list is too long")?;
    let rules = rules.list().context("a list is too long")?;
    let query_box = QueryBox::open(texts.plan.censor, 7, &names, &rules, 1).map_err(
        |_fault| anyhow!("the box is not opened"),
    )?;
    Ok(Desk::new(texts.heap, query_box)?)
}

fn enrol_all(texts: &Texts, desk: &mut Desk<Builtin>) -> anyhow::Result<()> {
    let secrets = texts.secrets()?;
    let secrets = secrets.list().context("a list is too long")?;
    for _counterparty in 0..texts.plan.counterparties {
        desk.enrol(Some(PRIOR.as_bytes()), &secrets)
            .map_err(|_fault| anyhow!("a counterparty is not enrolled"))?;
    }
    Ok(())
}

// Puts the questions, place by place, to one counterparty after the other, and returns how many were entered.
// The texts are made for all places, so that runs with more questions allocate no more.
fn put_all(texts: &Texts, desk: &mut Desk<Builtin>) -> anyhow::Result<usize> {
    let plan = texts.plan;
    let mut entered: usize = 0;
    for place in 0..PLACES {
        let text = texts.question(place)?;
        let before = place.saturating_mul(plan.counterparties);
        let left = plan.questions.saturating_sub(before);
        let count = put(desk, plan.counterparties.min(left), text.as_bytes());
        entered = entered.saturating_add(count);
    }
    Ok(entered)
}

// Puts the question to the first counterparties, and returns for how many it was entered.
fn put(desk: &mut Desk<Builtin>, counterparties: usize, text: &[u8]) -> usize {
    let mut entered: usize = 0;
    for counterparty in 0..counterparties {
        if desk.judge(counterparty, text).is_ok() && desk.enter(counterparty).is_some() {
            entered = entered.saturating_add(1);
        }
    }
    entered
}

// Makes the first fact untrue and true in turn, and returns how many notes were written.
fn amend_all(plan: &Plan, desk: &mut Desk<Builtin>) -> anyhow::Result<usize> {
    let mut notes = [BLANK_NOTE; MOST_NOTES];
    let mut written: usize = 0;
    for index in 0..plan.amendments {
        let count = amend(desk, index % 2 == 1, &mut notes)?;
        written = written.saturating_add(count);
    }
    Ok(written)
}

fn amend(desk: &mut Desk<Builtin>, value: bool, notes: &mut [Note]) -> anyhow::Result<usize> {
    let change = Change { fact: 0, value };
    desk.amend(&[change], notes)
        .map_err(|_fault| anyhow!("an amendment is turned down"))
}

fn print_counterparties(rt: &HostRuntime, plan: &Plan, desk: &Desk<Builtin>) -> anyhow::Result<()> {
    for counterparty in 0..plan.counterparties {
        let held = count_held(desk, counterparty);
        if let Ok(sheets) = desk.remaining(counterparty) {
            println!(rt; "counterparty {counterparty}: replies {held}, sheets left {sheets}")?;
        }
    }
    Ok(())
}

// How many replies the box holds for the counterparty.
fn count_held(desk: &Desk<Builtin>, counterparty: usize) -> usize {
    (0..PLACES)
        .filter(|place| matches!(desk.held(counterparty, *place), Ok(Some(_))))
        .count()
}
