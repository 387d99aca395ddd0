// Reading a line as a call.
use super::command::{Amendment, BoxCall, BoxName, Command, Enrolment, Opening};
use super::fields::Fields;
use super::flaws::Flaw;
use super::lists::read_list;
use super::numbers::decimal;
use super::scan::parted;
use super::words::CallWord;
use histories::data::Change;

// The call of a line that holds one.
pub(crate) fn read_line<'a>(fields: &mut Fields<'a>) -> Result<Command, Flaw<'a>> {
    let command = read_command(fields)?;
    fields.finish()?;
    Ok(command)
}

fn read_command<'a>(fields: &mut Fields<'a>) -> Result<Command, Flaw<'a>> {
    let word = fields.choice("the call")?;
    let target = read_box(fields)?;
    let call = match word {
        CallWord::Open => {
            let opening = read_opening(fields)?;
            return Ok(Command::Open { target, opening });
        }
        CallWord::Enter => return read_entry(target, fields),
        CallWord::Enrol => BoxCall::Enrol(read_enrolment(fields)?),
        CallWord::Judge => BoxCall::Judge {
            counterparty: read_counterparty(fields)?,
            text: fields.text("the text")?,
        },
        CallWord::Read => BoxCall::Read(read_counterparty(fields)?),
        CallWord::Amend => BoxCall::Amend(read_amendment(fields)?),
        CallWord::Held => BoxCall::Held {
            counterparty: read_counterparty(fields)?,
            place: fields.number("the place", usize::MAX)?,
        },
        CallWord::Remaining => BoxCall::Remaining(read_counterparty(fields)?),
    };
    Ok(Command::Call { target, call })
}

fn read_box<'a>(fields: &mut Fields<'a>) -> Result<BoxName, Flaw<'a>> {
    fields.choice("the box")
}

fn read_counterparty<'a>(fields: &mut Fields<'a>) -> Result<usize, Flaw<'a>> {
    fields.number("the counterparty", usize::MAX)
}

fn read_opening<'a>(fields: &mut Fields<'a>) -> Result<Opening, Flaw<'a>> {
    let censor = fields.choice("the censor")?;
    let number = fields.number("the box number", 255)? as u8;
    let sheet = fields.number("the sheet", 65535)? as u16;
    fields.expect("names")?;
    let names = read_list(fields)?;
    fields.expect("rules")?;
    let rules = read_list(fields)?;
    Ok(Opening {
        censor,
        number,
        sheet,
        names,
        rules,
    })
}

fn read_enrolment<'a>(fields: &mut Fields<'a>) -> Result<Enrolment, Flaw<'a>> {
    let prior = read_prior(fields)?;
    fields.expect("secrets")?;
    let secrets = read_list(fields)?;
    Ok(Enrolment { prior, secrets })
}

fn read_prior<'a>(fields: &mut Fields<'a>) -> Result<Option<Vec<u8>>, Flaw<'a>> {
    if !fields.next_is(b'p') {
        return Ok(None);
    }
    fields.expect("prior")?;
    Ok(Some(fields.text("the prior")?))
}

// The slip comes from the box that it is entered in, unless the line names the other.
fn read_entry<'a>(target: BoxName, fields: &mut Fields<'a>) -> Result<Command, Flaw<'a>> {
    let counterparty = read_counterparty(fields)?;
    if read_source(fields)?.unwrap_or(target) == target {
        return Ok(Command::Call {
            target,
            call: BoxCall::Enter(counterparty),
        });
    }
    Ok(Command::EnterOther {
        target,
        counterparty,
    })
}

// The box that the slip comes from, where the line names it.
fn read_source<'a>(fields: &mut Fields<'a>) -> Result<Option<BoxName>, Flaw<'a>> {
    if !fields.next_is(b'f') {
        return Ok(None);
    }
    fields.expect("from")?;
    Ok(Some(read_box(fields)?))
}

fn read_amendment<'a>(fields: &mut Fields<'a>) -> Result<Amendment, Flaw<'a>> {
    Ok(Amendment {
        notes_len: fields.number("the length of the list for notes", 65535)?,
        changes: fields.numbered("a change", read_change)?,
    })
}

// A fact and its new value with `=` between.
fn read_change(word: &[u8]) -> Result<Change, Flaw<'_>> {
    let (fact, value) = parted(word, b'=').ok_or(Flaw::MissingField("the value of a change"))?;
    let value = match value {
        b"yes" => true,
        b"no" => false,
        _ => return Err(Flaw::UnknownWord(word)),
    };
    Ok(Change {
        fact: decimal(fact, usize::MAX)?,
        value,
    })
}
