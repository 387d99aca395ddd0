// Symbols: tokens whose names have been looked up.
ghost use Rattle.std.specs.Prelude.{◌≡◌, Decides};
ghost use Rattle.sentences.specs.Machine.{symbol_of};
ghost use Rattle.sentences.specs.Naming.{words};
ghost use Rattle.sentences.specs.Reads.{NextSymbol};
ghost use Rattle.sentences.specs.Scanning.{tok_of};

use super::cursor::Cursor;
use super::faults::SentenceFault;
use super::names::Names;
use super::tokens::{Found, Sign, Token};

// A sign, or the index of the fact that a word names.
#[derive(Clone, Copy, PartialEq, Eq)]
pub enum Symbol {
    Sign(Sign),
    Fact(usize),
}

impl Found<Symbol> {
    pub(crate) fn is(&self, sign: Sign) -> bool
        ensures { Decides result (self.now.what ≡ Symbol.Sign sign) }
    {
        self.what == Symbol::Sign(sign)
    }
}

// The symbol of a token, unless it is a word that is no name.
fn look_up(names: &Names, token: Token) -> Option<Symbol>
    ensures { result ≡ symbol_of (words names.now) (tok_of token.entry) }
{
    match token {
        Token::Sign(sign) => Some(Symbol::Sign(sign)),
        Token::Word(word) => names.fact(word).map(Symbol::Fact),
    }
}

impl Cursor<'_> {
    // The next symbol of the text, after the tests of its byte and of its name.
    pub(crate) fn symbol(&self) -> Result<Option<Found<Symbol>>, SentenceFault>
        ensures { NextSymbol (words self.now.names.now) self.now.text.now self.now.at result }
    {
        let Some(found) = self.token()? else {
            return Ok(None);
        };
        let symbol = look_up(self.names, found.what).ok_or(SentenceFault::Unknown(found.start))?;
        Ok(Some(Found {
            what: symbol,
            start: found.start,
            after: found.after,
        }))
    }
}
