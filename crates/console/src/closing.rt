// What is done and printed when a script has ended.
use super::boxes::Boxes;
use super::command::BoxName;
use super::diary::Page;
use super::flaws::Flaw;
use super::open_box::OpenBox;
use super::show::Quoted;
use std::alloc::AllocError;
use std::io;

// Enters the slips that are still out, by box and counterparty, and reports on each box.
pub(crate) fn close_day(rt: &HostRuntime, boxes: &mut Boxes) -> io::Result<()> {
    boxes.each_open(|name, opened| enter_rest(rt, name, opened))?;
    boxes.each_open(|name, opened| report_box(rt, name, opened))
}

fn enter_rest(rt: &HostRuntime, name: BoxName, opened: &mut OpenBox) -> io::Result<()> {
    // by number, since entering borrows the whole box
    for counterparty in 0..opened.diary.pages.len() {
        match opened.enter(counterparty) {
            Ok(outcome) => println!(rt; "end: enter {name} {counterparty}: {outcome}")?,
            Err(Flaw::NoMemory) => return Err(AllocError.into()),
            // no slip is kept for it
            Err(_) => {}
        }
    }
    Ok(())
}

fn report_box(rt: &HostRuntime, name: BoxName, opened: &OpenBox) -> io::Result<()> {
    let count = opened.diary.pages.len();
    println!(rt; "box {name}, counterparties: {count}")?;
    for (counterparty, page) in opened.diary.pages.iter().enumerate() {
        let remaining = opened.remaining(counterparty);
        println!(rt; "  counterparty {counterparty}, {remaining}")?;
        report_questions(rt, opened, counterparty, page)?;
        report_notes(rt, page)?;
    }
    Ok(())
}

fn report_questions(
    rt: &HostRuntime,
    opened: &OpenBox,
    counterparty: usize,
    page: &Page,
) -> io::Result<()> {
    for (place, text) in page.entered.iter().enumerate() {
        let text = Quoted::whole(text.as_slice());
        let held = opened.held(counterparty, place);
        println!(rt; "    place {place}, {text}: {held}")?;
    }
    Ok(())
}

fn report_notes(rt: &HostRuntime, page: &Page) -> io::Result<()> {
    for note in page.notes.iter() {
        let line = note.line;
        let place = note.place;
        let reply = note.reply;
        println!(rt; "    note of line {line}: place {place} is now {reply}")?;
    }
    Ok(())
}
