// The fields of a line, taken from the left: words, and texts between quotes. Blanks may part them.
ghost use Rattle.std.specs.Prelude.{◌≡◌, ◌<◌, ◌≤◌, length, true, IfOk, OnOk, OnSome};

use super::flaws::Flaw;
use super::numbers::decimal;
use super::scan::{blanks_len, word_len};
use super::texts::read_text;
use std::alloc::Global;

// What is left of a line, and where texts and lists that are read from it are kept.
// An `Err` ends the reading of the line: nothing is read from it afterwards.
#[derive(Drop)]
pub(crate) struct Fields<'a> {
    heap: Global,
    rest: &'a [u8],
}

impl<'a> Fields<'a> {
    pub(crate) fn new(heap: Global, line: &'a [u8]) -> Fields<'a> {
        Fields { heap, rest: line }
    }

    pub(crate) fn heap(&self) -> Global {
        self.heap
    }

    // Nothing but blanks may be left.
    pub(crate) fn finish(&mut self) -> Result<(), Flaw<'a>> {
        match self.first() {
            None => Ok(()),
            Some(_) => Err(Flaw::AfterEnd(self.rest)),
        }
    }

    // Whether the line holds no call.
    pub(crate) fn is_comment(&mut self) -> bool {
        matches!(self.first(), None | Some(b'#'))
    }

    // Whether the next field begins with the byte.
    pub(crate) fn next_is(&mut self, byte: u8) -> bool
        ensures left { length self.new.rest.now ≤ length self.old.rest.now }
        ensures more { result ≡ true → 0 < length self.new.rest.now }
    {
        self.first() == Some(byte)
    }

    // The value that the next word stands for.
    // `what` lives as long as the line: beside `'static`, a bound over the line's lifetime is not covered by a proof.
    pub(crate) fn choice<T: TryFrom<&'a [u8]>>(&mut self, what: &'a str) -> Result<T, Flaw<'a>>
    where
        T::Error: Drop,
    {
        let word = self.word(what)?;
        // by way of an option: a closure over an associated type is not supported
        T::try_from(word).ok().ok_or(Flaw::UnknownWord(word))
    }

    // The word that has to stand next.
    pub(crate) fn expect(&mut self, expected: &'a str) -> Result<(), Flaw<'a>> {
        let word = self.word(expected)?;
        if word != expected.as_bytes() {
            return Err(Flaw::UnknownWord(word));
        }
        Ok(())
    }

    pub(crate) fn number(&mut self, what: &'a str, most: usize) -> Result<usize, Flaw<'a>>
        ensures { IfOk result (λ n. n ≤ most) }
    {
        decimal(self.word(what)?, most)
    }

    pub(crate) fn text(&mut self, what: &'a str) -> Result<Vec<u8>, Flaw<'a>>
        ensures { OnOk result (length self.new.rest.now < length self.old.rest.now) }
    {
        self.skip_blanks();
        let rest = self
            .rest
            .strip_prefix(b"\"")
            .ok_or(Flaw::MissingField(what))?;
        let read = read_text(self.heap, rest)?;
        self.rest = read.rest;
        Ok(read.bytes)
    }

    // What the next words say, as long as they begin with a digit.
    pub(crate) fn numbered<T: Drop, F: Fn(&[u8]) -> Result<T, Flaw<'_>>>(
        &mut self,
        what: &'a str,
        read: F,
    ) -> Result<Vec<T>, Flaw<'a>>
        requires { F.IsAlwaysCallable read }
    {
        let mut values = Vec::new(self.heap);
        while matches!(self.first(), Some(b'0'..=b'9')) {
            values.push(read(self.word(what)?)?)?;
        }
        Ok(values)
    }

    // A longest run of bytes that are neither blanks nor quotes.
    fn word(&mut self, what: &'a str) -> Result<&'a [u8], Flaw<'a>>
        ensures { OnOk result (length self.new.rest.now < length self.old.rest.now) }
    {
        self.skip_blanks();
        let (word, rest) = self.rest.split_at(word_len(self.rest));
        if word.is_empty() {
            return Err(Flaw::MissingField(what));
        }
        self.rest = rest;
        Ok(word)
    }

    // The first byte of the next field, if the line goes on.
    fn first(&mut self) -> Option<u8>
        ensures left { length self.new.rest.now ≤ length self.old.rest.now }
        ensures more { OnSome result (0 < length self.new.rest.now) }
    {
        self.skip_blanks();
        self.rest.first().copied()
    }

    fn skip_blanks(&mut self)
        ensures { length self.new.rest.now ≤ length self.old.rest.now }
    {
        self.rest = &self.rest[blanks_len(self.rest)..];
    }
}
