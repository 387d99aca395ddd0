// One name of a fact, kept by value, and lists of them.
ghost use Rattle.std.specs.Prelude.{◌≡◌, take};
ghost use Rattle.std.specs.Str.{bytes_eq};
ghost use Rattle.sentences.specs.Names.{spelling, words_of, fact_of, is_name, word_bytes, unfit};

use super::tokens::is_word_byte;
use tables::filled::Filled;

// At most 12 bytes.
#[derive(Clone, Copy)]
pub struct Name {
    letters: Filled<u8, 12>,
}

impl Name {
    // The first 12 bytes of the word as a name.
    pub(crate) fn of(word: &[u8]) -> Name
        ensures { spelling result ≡ take 12 word.now }
    {
        Name {
            letters: Filled::of(word, 0),
        }
    }

    // Whether the word is this name.
    fn is(&self, word: &[u8]) -> bool
        ensures { result ≡ bytes_eq (spelling self.now) word.now }
    {
        self.letters.as_slice() == word
    }
}

// The index of the word among the names.
pub(crate) fn find(names: &[Name], word: &[u8]) -> Option<usize>
    ensures { result ≡ fact_of (words_of names.now) word.now }
{
    names.iter().position(|name| name.is(word))
}

// Whether the word is no name, or is among the names.
#[tactic(auto, unfolding(crate::specs::Names::unfit))]
pub(crate) fn is_unfit(names: &[Name], word: &[u8]) -> bool
    ensures { result ≡ unfit (words_of names.now) word.now }
{
    !is_name(word) || find(names, word).is_some()
}

// Whether the word can be a name: 1 to 12 small letters and digits, a letter first.
#[tactic(auto, using(std::proofs::lemmas::Bool::Decides::nat_tests), unfolding(crate::specs::Names::is_name))]
fn is_name(word: &[u8]) -> bool
    ensures { result ≡ is_name word.now }
{
    if word.is_empty() || word.len() > 12 {
        return false;
    }
    word[0] >= b'a' && has_word_bytes(word)
}

fn has_word_bytes(word: &[u8]) -> bool
    ensures { result ≡ word_bytes word.now }
{
    word.iter().all(|byte| is_word_byte(*byte))
}
