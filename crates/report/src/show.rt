// How texts and sets of sheets are printed.
ghost use Rattle.std.specs.Prelude.{◌≡◌, ◌+◌, ◌≤◌, min, take};
ghost use Rattle.sheets.specs.Sets.{mem, count as count_of};
ghost use Rattle.sheets.specs.Passing.{passing};
ghost use Rattle.report.specs.Printed.{columns};

use sheets::SheetSet;
use std::{fmt, io};

// The longest text that a sentence can have.
const TEXT_LIMIT: usize = 256;

// How many sheets stand on a line.
const ROW: usize = 16;

// A text of which each byte takes one column: a byte that is no printable ASCII stands as '?'.
// Only what fits a sentence is shown.
#[derive(Clone, Copy)]
pub struct Shown<'a> {
    pub text: &'a [u8],
}

impl fmt::Display for Shown<'_> {
    fn fmt<W: fmt::Write>(&self, f: &mut fmt::Formatter<W>) -> fmt::Result {
        for byte in self.text.iter().take(TEXT_LIMIT) {
            f.write_char(printable(*byte))?;
        }
        Ok(())
    }
}

fn printable(byte: u8) -> char
    ensures low { 32 ≤ result }
    ensures high { result ≤ 126 }
    ensures same { 32 ≤ byte → byte ≤ 126 → result ≡ byte }
{
    match byte {
        b' '..=b'~' => byte as char,
        _ => '?',
    }
}

// The text, and a caret below the place. A place past the end is just after the text.
pub fn print_caret(rt: &HostRuntime, text: &[u8], place: usize) -> io::Result<()> {
    let width = caret_width(place.min(text.len()));
    print_below(rt, text, place, width)
}

// The caret ends a line of this width, so what is shown before the place stands above the blanks. Only the clause reads the place.
fn print_below(rt: &HostRuntime, text: &[u8], place: usize, width: usize) -> io::Result<()>
    requires { width ≡ columns (take place text.now) + 1 }
{
    let shown = Shown { text };
    println!(rt; "    {shown}")?;
    println!(rt; "    {:>width$}", '^')
}

// The columns of a text up to a caret, with the caret's own.
fn caret_width(place: usize) -> usize
    ensures { result ≡ min place 256 + 1 }
{
    place.min(TEXT_LIMIT) + 1
}

// Sheets that stand on one line.
#[derive(Clone, Copy)]
struct Row<'a> {
    sheets: &'a [u16],
}

impl fmt::Display for Row<'_> {
    fn fmt<W: fmt::Write>(&self, f: &mut fmt::Formatter<W>) -> fmt::Result {
        for sheet in self.sheets {
            write!(f, " {sheet}")?;
        }
        Ok(())
    }
}

// In how many of a box's sheets a sentence is true, and in which.
pub fn print_set(rt: &HostRuntime, set: &SheetSet, all: u16) -> io::Result<()> {
    print_count(rt, set, set.count(), all)?;
    let sheets = set.members(rt.alloc())?;
    print_members(rt, set, sheets.as_slice())
}

// Only the clause reads the set.
fn print_count(rt: &HostRuntime, set: &SheetSet, count: u16, all: u16) -> io::Result<()>
    requires { count ≡ count_of (mem set.now) 256 }
{
    print!(rt; "  true in {count} of {all} sheets")
}

// Only the clause reads the set.
fn print_members(rt: &HostRuntime, set: &SheetSet, sheets: &[u16]) -> io::Result<()>
    requires { sheets.now ≡ passing (mem set.now) 256 }
{
    print_rows(rt, sheets)
}

fn print_rows(rt: &HostRuntime, sheets: &[u16]) -> io::Result<()> {
    for (index, sheets) in sheets.chunks(ROW).enumerate() {
        print_row(rt, index, Row { sheets })?;
    }
    println!(rt; "")
}

// The first row goes on where the count ended.
fn print_row(rt: &HostRuntime, index: usize, row: Row) -> io::Result<()> {
    let before = if index == 0 { ":" } else { "\n   " };
    print!(rt; "{before}{row}")
}
