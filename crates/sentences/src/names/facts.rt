// Reading a list of names, and which fact a word names.
ghost use Rattle.std.specs.Prelude.{◌≡◌, length};
ghost use Rattle.sentences.specs.Names.{fact_of};
ghost use Rattle.sentences.specs.Naming.{words, naming, named};

use super::super::cuts::CutList;
use super::super::faults::{ListFault, ListKind};
use super::super::name::{Name, find, is_unfit};
use super::Names;
use tables::filled::Filled;

impl Names {
    // The names of a list, or its first fault: the number of names, then the pairs, then each name in order.
    pub fn parse(list: &CutList) -> Result<Names, ListFault>
        ensures { named result ≡ naming list.now }
    {
        list.test(ListKind::Names, 1)?;
        let mut names = Filled::new(Name::of(b""));
        for (index, cut) in list.cuts.iter().enumerate() {
            let word = list.piece(*cut);
            if is_unfit(names.as_slice(), word) {
                return Err(ListFault::BadName(index));
            }
            names.push(Name::of(word));
        }
        Ok(Names { names })
    }

    pub fn count(&self) -> usize
        ensures { result ≡ length (words self.now) }
    {
        self.names.len()
    }

    // The index of the name that is the word.
    pub fn fact(&self, word: &[u8]) -> Option<usize>
        ensures { result ≡ fact_of (words self.now) word.now }
    {
        find(self.names.as_slice(), word)
    }
}
