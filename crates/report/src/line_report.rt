// The report of one file, line by line: its names, and its sentences in their order.
ghost use Rattle.std.specs.Prelude.{◌≡◌, ◌+◌, ◌-◌, ◌^◌, min};

use super::file_report::FileReport;
use super::input::{Label, Line, read_line, words};
use super::lists::{Unread, names_in};
use super::refusals::ExplainedRefusal;
use super::show::{Shown, print_caret, print_set};
use super::start::sheets_of;
use inputs::lines::{Split, without_return};
use pieces::Pieces;
use sentences::faults::SentenceFault;
use sentences::names::Names;
use sentences::reading::parse;
use std::alloc::{AllocError, Global};
use std::{fmt, io};

// Prints the report of a file, and keeps what the file has given so far.
#[derive(Drop)]
pub(crate) struct Reporter<'r, 'a> {
    pub(crate) rt: &'r HostRuntime,
    pub(crate) so_far: FileReport<'a>,
}

pub fn report(rt: &HostRuntime, name: &str, text: &[u8]) -> io::Result<()> {
    let title = Shown {
        text: name.as_bytes(),
    };
    print_title(rt, name, title)?;
    let so_far = FileReport::new(rt.alloc());
    let mut reporter = Reporter { rt, so_far };
    for (index, line) in Split::new(text, b'\n').enumerate() {
        let number = index.saturating_add(1);
        reporter.numbered(index, number, without_return(line))?;
    }
    reporter.end()
}

fn print_title(rt: &HostRuntime, name: &str, title: Shown) -> io::Result<()>
    requires { title.text.now ≡ name.now }
{
    println!(rt; "== {title} ==")
}

impl<'a> Reporter<'_, 'a> {
    // The index counts from 0, and a reader counts lines from 1.
    fn numbered(&mut self, index: usize, number: usize, line: &'a [u8]) -> io::Result<()>
        requires { number ≡ min (index + 1) (2 ^ 64 - 1) }
    {
        self.line(number, line)
    }

    fn line(&mut self, number: usize, line: &'a [u8]) -> io::Result<()> {
        match read_line(line) {
            Line::Nothing => Ok(()),
            Line::Names(text) => self.names_line(number, text),
            Line::Sentence(label, text) => self.sentence_line(number, label, text),
            Line::UnknownLabel(label) => {
                let label = Shown { text: label };
                self.bad_line(number, format_args!("the label '{label}' is unknown"))
            }
        }
    }

    fn bad_line(&mut self, number: usize, reason: impl fmt::Display + Drop) -> io::Result<()> {
        self.so_far.count_bad_line();
        println!(self.rt; "line {number}: {reason}")
    }

    fn names_line(&mut self, number: usize, text: &[u8]) -> io::Result<()> {
        if self.so_far.naming.is_some() {
            return self.bad_line(number, "the names were given before");
        }
        let words = words(self.rt.alloc(), text)?;
        self.names(words.as_slice())
    }

    fn names(&mut self, words: &[&[u8]]) -> io::Result<()> {
        let read = read_names(self.rt.alloc(), words)?;
        self.so_far.take_names(read);
        match read {
            Ok(_) => print_names(self.rt, words),
            Err(why) => println!(self.rt; "names: {why}"),
        }
    }

    fn sentence_line(&mut self, number: usize, label: Label, text: &'a [u8]) -> io::Result<()> {
        if self.so_far.is_given(label) {
            return self.bad_line(number, "the prior was given before");
        }
        match self.so_far.naming {
            None => self.bad_line(number, "a sentence before the names"),
            Some(Err(_)) => {
                self.so_far.skip();
                Ok(())
            }
            Some(Ok(names)) => self.sentence(&names, label, text),
        }
    }

    fn sentence(&mut self, names: &Names, label: Label, text: &'a [u8]) -> io::Result<()> {
        let number = self.so_far.add(label, text)?;
        print_sentence(self.rt, label, number, text)?;
        match parse(names, text) {
            Ok(meaning) => {
                self.so_far.accept(label, number, text, meaning.sheets)?;
                print_set(self.rt, &meaning.sheets, sheets_of(names).count())
            }
            Err(fault) => {
                self.so_far.refuse(label, fault);
                print_refusal(self.rt, text, fault)
            }
        }
    }
}

// The words need not be UTF-8, so Pieces::of, which takes &str, cannot take them.
fn read_names(heap: Global, words: &[&[u8]]) -> Result<Result<Names, Unread>, AllocError> {
    let mut pieces = Pieces::new(heap);
    for word in words {
        pieces.add(word)?;
    }
    Ok(names_in(&pieces))
}

fn print_names(rt: &HostRuntime, words: &[&[u8]]) -> io::Result<()> {
    println!(rt; "names:")?;
    for (index, word) in words.iter().enumerate() {
        let word = Shown { text: *word };
        println!(rt; "  {index} {word}")?;
    }
    Ok(())
}

fn print_sentence(rt: &HostRuntime, label: Label, number: usize, text: &[u8]) -> io::Result<()> {
    let shown = Shown { text };
    println!(rt; "{label} {number}: {shown}")
}

// A text that is too long has no place worth a caret.
fn print_refusal(rt: &HostRuntime, text: &[u8], fault: SentenceFault) -> io::Result<()> {
    let explained = ExplainedRefusal::of_sentence(fault);
    println!(rt; "  {explained}")?;
    match fault {
        SentenceFault::TooLong => Ok(()),
        SentenceFault::Stray(place)
        | SentenceFault::Unknown(place)
        | SentenceFault::Misfit(place) => print_caret(rt, text, place),
    }
}
