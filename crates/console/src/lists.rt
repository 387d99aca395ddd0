// Lists of a script.
use super::fields::Fields;
use super::flaws::Flaw;
use super::numbers::decimal;
use super::scan::parted;
use pieces::Pieces;
use sentences::cuts::{Cut, CutList};

// A list as a line gives it.
#[derive(Drop)]
pub(crate) enum ListField {
    Texts(Pieces),
    // a block, and pairs that need not fit it
    Cuts { block: Vec<u8>, cuts: Vec<Cut> },
}

impl ListField {
    // The list as a box takes it.
    pub(crate) fn list(&self) -> Result<CutList<'_>, Flaw<'static>> {
        match self {
            ListField::Texts(pieces) => pieces.list().ok_or(Flaw::LongList),
            ListField::Cuts { block, cuts } => Ok(CutList {
                block: block.as_slice(),
                cuts: cuts.as_slice(),
            }),
        }
    }
}

// Texts one after the other, or the word `block` with a text and pairs. The list may be empty.
pub(crate) fn read_list<'a>(fields: &mut Fields<'a>) -> Result<ListField, Flaw<'a>> {
    if !fields.next_is(b'b') {
        return Ok(ListField::Texts(read_texts(fields)?));
    }
    fields.expect("block")?;
    let block = fields.text("the block")?;
    let cuts = fields.numbered("a pair", read_cut)?;
    Ok(ListField::Cuts { block, cuts })
}

fn read_texts<'a>(fields: &mut Fields<'a>) -> Result<Pieces, Flaw<'a>> {
    let mut pieces = Pieces::new(fields.heap());
    while fields.next_is(b'"') {
        pieces.add(fields.text("a text")?.as_slice())?;
    }
    Ok(pieces)
}

// An offset and a length with `+` between.
fn read_cut(word: &[u8]) -> Result<Cut, Flaw<'_>> {
    let (offset, len) = parted(word, b'+').ok_or(Flaw::MissingField("the length of a pair"))?;
    Ok(Cut {
        offset: decimal(offset, 65535)? as u16,
        len: decimal(len, 65535)? as u16,
    })
}
