// What the boxes do not keep and the closing report shows: texts of questions, and notes that were sent.
use censors::question::Reply;
use histories::data::Note;
use std::alloc::{AllocError, Global};

// A note, and the line of the amendment that caused it.
#[derive(Clone, Copy)]
pub(crate) struct SentNote {
    pub(crate) line: usize,
    pub(crate) place: usize,
    pub(crate) reply: Reply,
}

// What is kept of one counterparty.
#[derive(Drop)]
pub(crate) struct Page {
    // the question whose slip is out
    judged: Option<Vec<u8>>,
    pub(crate) entered: Vec<Vec<u8>>,
    pub(crate) notes: Vec<SentNote>,
}

// A page for each counterparty of a box, in the order of their numbers.
#[derive(Drop)]
pub(crate) struct Diary {
    pub(crate) pages: Vec<Page>,
}

impl Diary {
    pub(crate) fn new(heap: Global) -> Diary {
        Diary {
            pages: Vec::new(heap),
        }
    }

    pub(crate) fn enrol(&mut self, heap: Global) -> Result<(), AllocError> {
        let page = Page {
            judged: None,
            entered: Vec::new(heap),
            notes: Vec::new(heap),
        };
        self.pages.push(page)?;
        Ok(())
    }

    pub(crate) fn judge(&mut self, counterparty: usize, text: Vec<u8>) {
        if let Some(page) = self.pages.get_mut(counterparty) {
            page.judged = Some(text);
        }
    }

    // The question that was judged is entered.
    pub(crate) fn enter(&mut self, counterparty: usize) -> Result<(), AllocError> {
        if let Some(page) = self.pages.get_mut(counterparty)
            && let Some(text) = page.judged.take()
        {
            page.entered.push(text)?;
        }
        Ok(())
    }

    pub(crate) fn send(&mut self, line: usize, note: &Note) -> Result<(), AllocError> {
        if let Some(page) = self.pages.get_mut(note.counterparty) {
            let place = note.place;
            let reply = note.reply;
            page.notes.push(SentNote { line, place, reply })?;
        }
        Ok(())
    }
}
