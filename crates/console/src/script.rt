// Running a script, line by line.
use super::boxes::Boxes;
use super::closing::close_day;
use super::command::Command;
use super::fields::Fields;
use super::flaws::Flaw;
use super::parse::read_line;
use inputs::lines::{Split, without_return};
use std::alloc::AllocError;
use std::io;

// The slips that are out must not be let go, so the boxes are closed whatever happens.
pub(crate) fn run_script(rt: &HostRuntime, name: &str, script: &[u8]) -> io::Result<()> {
    println!(rt; "== {name} ==")?;
    let mut boxes = Boxes::new();
    let result = run_lines(rt, &mut boxes, script);
    boxes.close();
    result
}

fn run_lines(rt: &HostRuntime, boxes: &mut Boxes, script: &[u8]) -> io::Result<()> {
    for (index, line) in Split::new(script, b'\n').enumerate() {
        run_line(rt, boxes, index.saturating_add(1), without_return(line))?;
    }
    close_day(rt, boxes)
}

fn run_line(rt: &HostRuntime, boxes: &mut Boxes, number: usize, line: &[u8]) -> io::Result<()> {
    let mut fields = Fields::new(rt.alloc(), line);
    if fields.is_comment() {
        return Ok(());
    }
    match read_line(&mut fields) {
        Ok(command) => run_command(rt, boxes, number, &command),
        Err(flaw) => skip(rt, number, flaw),
    }
}

fn run_command(
    rt: &HostRuntime,
    boxes: &mut Boxes,
    number: usize,
    command: &Command,
) -> io::Result<()> {
    match boxes.call(rt.alloc(), number, command) {
        Ok(outcome) => println!(rt; "{number} {command}: {outcome}"),
        Err(flaw) => skip(rt, number, flaw),
    }
}

// A lack of memory ends the run; any other flaw is reported.
fn skip(rt: &HostRuntime, number: usize, flaw: Flaw) -> io::Result<()> {
    if let Flaw::NoMemory = flaw {
        return Err(AllocError.into());
    }
    println!(rt; "{number} skipped: {flaw}")
}
