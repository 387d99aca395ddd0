// Lists of names, house rules and secrets, as tables give them.
use anyhow::anyhow;
use pieces::Pieces;
use sentences::cuts::{Cut, CutList};
use std::alloc::{AllocError, Global};

#[derive(Clone, Copy)]
pub enum Listing {
    // texts that follow one another
    Texts(&'static [&'static str]),
    // pairs that are written out
    Cuts {
        block: &'static [u8],
        cuts: &'static [Cut],
    },
}

impl Listing {
    // The texts in a block; nothing for pairs that are written out.
    pub(crate) fn pieces(&self, heap: Global) -> Result<Pieces, AllocError> {
        match *self {
            Listing::Texts(texts) => Pieces::of(heap, texts),
            Listing::Cuts { block: _, cuts: _ } => Ok(Pieces::new(heap)),
        }
    }

    // The list as a box takes it, over the block of its pieces.
    pub(crate) fn list<'a>(&self, pieces: &'a Pieces) -> anyhow::Result<CutList<'a>> {
        if let Listing::Cuts { block, cuts } = *self {
            return Ok(CutList { block, cuts });
        }
        pieces
            .list()
            .ok_or_else(|| anyhow!("the texts of a case are too long for a list"))
    }
}
