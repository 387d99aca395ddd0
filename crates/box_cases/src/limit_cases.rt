// A box that is full: eight counterparties with 64 questions each, and an amendment that changes every reply.
// The lying censor repeats itself once a value is settled, so that all replies turn with the fact that is asked about.
// The desk is kept apart from the checks, which other stories have alone.
use super::boxes::{BOTH, LYING, SOLD_FALSE, SOLD_TRUE};
use super::calls::{amend, enrol, enter, held, judge, remaining, unwritten, unwritten_notes};
use super::checks::Checks;
use super::outcomes::{Expected, NO, Outcome, YES};
use super::stories::Setting;
use censors::builtin::Builtin;
use censors::question::Reply;
use desks::Desk;
use histories::data::{COUNTERPARTIES, MOST_NOTES, Note, PLACES};

pub(crate) fn run(checks: &mut Checks) -> anyhow::Result<()> {
    let Some(mut desk) = LYING.open(checks, "a box to be filled")? else {
        return Ok(());
    };
    let done = run_on(checks, &mut desk);
    desk.close();
    done
}

fn run_on(checks: &mut Checks, desk: &mut Desk<Builtin>) -> anyhow::Result<()> {
    enrol_all(checks, desk)?;
    ask_all(checks, desk)?;
    check_all(checks, desk, false)?;
    amend_sold(checks, desk, true, 520)?;
    check_all(checks, desk, true)?;
    amend_sold(checks, desk, false, MOST_NOTES)?;
    check_held(checks, desk, false)
}

fn check_all(checks: &mut Checks, desk: &mut Desk<Builtin>, sold: bool) -> anyhow::Result<()> {
    check_full(checks, desk)?;
    check_left(checks, desk)?;
    check_held(checks, desk, sold)
}

// Whether the question at the place is `sold`; else it is `!sold`.
fn asks_sold(counterparty: usize, place: usize) -> bool {
    counterparty % 2 == place % 2
}

// The reply at the place while the fact sold has the value.
fn reply_when(sold: bool, counterparty: usize, place: usize) -> Reply {
    if asks_sold(counterparty, place) == sold {
        YES
    } else {
        NO
    }
}

fn enrol_all(checks: &mut Checks, desk: &mut Desk<Builtin>) -> anyhow::Result<()> {
    for counterparty in 0..COUNTERPARTIES {
        let got = enrol(checks.heap(), desk, None, BOTH)?;
        let expected = Outcome::Enrolled(counterparty);
        checks.compare("eight are enrolled", counterparty, expected, got)?;
    }
    Ok(())
}

// Every counterparty in turn puts one question, 64 times.
fn ask_all(checks: &mut Checks, desk: &mut Desk<Builtin>) -> anyhow::Result<()> {
    for turn in 0..MOST_NOTES {
        ask(checks, desk, turn % COUNTERPARTIES, turn / COUNTERPARTIES)?;
    }
    Ok(())
}

fn ask(
    checks: &mut Checks,
    desk: &mut Desk<Builtin>,
    counterparty: usize,
    place: usize,
) -> anyhow::Result<()> {
    let text = if asks_sold(counterparty, place) {
        "sold"
    } else {
        "!sold"
    };
    let got = judge(desk, counterparty, text.as_bytes());
    let expected = Outcome::Judged(counterparty, place);
    checks.compare("64 questions are judged", place, expected, got)?;
    let got = enter(desk, counterparty);
    let expected = Outcome::Replied(reply_when(false, counterparty, place));
    checks.compare("64 questions are entered", place, expected, got)
}

// A question more is refused, whatever its text.
fn check_full(checks: &mut Checks, desk: &mut Desk<Builtin>) -> anyhow::Result<()> {
    let expected = Expected::Limit(14, 64).outcome();
    for counterparty in 0..COUNTERPARTIES {
        let got = judge(desk, counterparty, b"sold");
        checks.compare("a 65th question", counterparty, expected, got)?;
        let got = judge(desk, counterparty, b"?");
        checks.compare("a 65th text", counterparty, expected, got)?;
    }
    Ok(())
}

// Nothing is held at place 64, and four sheets are left.
fn check_left(checks: &mut Checks, desk: &Desk<Builtin>) -> anyhow::Result<()> {
    for counterparty in 0..COUNTERPARTIES {
        let got = held(desk, counterparty, PLACES);
        checks.compare("no 65th reply", counterparty, Outcome::Held(None), got)?;
        let got = remaining(desk, counterparty);
        checks.compare("sheets left", counterparty, Outcome::Remaining(4), got)?;
    }
    Ok(())
}

fn check_held(checks: &mut Checks, desk: &Desk<Builtin>, sold: bool) -> anyhow::Result<()> {
    for index in 0..MOST_NOTES {
        let counterparty = index / PLACES;
        let place = index % PLACES;
        let expected = Outcome::Held(Some(reply_when(sold, counterparty, place)));
        let got = held(desk, counterparty, place);
        checks.compare("replies that stand", index, expected, got)?;
    }
    Ok(())
}

// Sold gets the value, and 512 notes are written into a list with room for `room`.
fn amend_sold(
    checks: &mut Checks,
    desk: &mut Desk<Builtin>,
    sold: bool,
    room: usize,
) -> anyhow::Result<()> {
    let mut notes = unwritten_notes(checks.heap(), room)?;
    let change = if sold { SOLD_TRUE } else { SOLD_FALSE };
    let got = amend(desk, &[change], notes.as_mut_slice());
    checks.compare("512 notes", 0, Outcome::Amended(MOST_NOTES), got)?;
    check_notes(checks, notes.as_slice(), sold)?;
    let expected = Outcome::Unwritten(room.saturating_sub(MOST_NOTES));
    let past = unwritten(notes.as_slice(), MOST_NOTES);
    checks.compare("notes past the last", 0, expected, past)?;
    let all = unwritten(notes.as_slice(), 0);
    checks.compare("notes past the last", 1, expected, all)
}

// By counterparty, then place.
fn check_notes(checks: &mut Checks, notes: &[Note], sold: bool) -> anyhow::Result<()> {
    for (index, note) in notes.iter().take(MOST_NOTES).enumerate() {
        let counterparty = index / PLACES;
        let place = index % PLACES;
        let reply = reply_when(sold, counterparty, place);
        let expected = Outcome::Note(counterparty, place, reply);
        let got = Outcome::from(*note);
        checks.compare("notes in order", index, expected, got)?;
    }
    Ok(())
}
