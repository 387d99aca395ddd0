// Notes on the replies that have changed. The caller lends the slice that they are written into, so it goes with the index from which to go on.
ghost use Rattle.std.specs.Prelude.{◌≡◌, ◌+◌, ◌<◌, ◌≤◌, length};
ghost use Rattle.histories.specs.Calls.{changed};
ghost use Rattle.querybox.specs.Notes.{Written, note_on};

use censors::question::Reply;
use histories::data::{Entry, Note};

// Writes a note for each reply that differs, in order of place, from the index `from` on. What is returned is the index after the last one.
pub(crate) fn write_notes(
    old: &[Entry],
    new: &[Entry],
    counterparty: usize,
    out: &mut [Note],
    from: usize,
) -> usize
    requires few { length old.now ≤ 64 }
    requires same { length new.now ≡ length old.now }
    requires room { from + 64 ≤ length out.old }
    ensures writes { Written out.old from (changed counterparty 0 old.now new.now) result out.new }
    ensures most { result ≤ from + 64 }
{
    let mut end = from;
    for (place, (before, after)) in old.iter().zip(new).enumerate() {
        let note = Note {
            counterparty,
            place,
            reply: after.reply,
        };
        end = write_note(before.reply, note, out, end);
    }
    end
}

// Writes the note if its reply differs from the old one.
fn write_note(old: Reply, note: Note, out: &mut [Note], from: usize) -> usize
    requires { from < length out.old }
    ensures writes { Written out.old from (note_on old note) result out.new }
    ensures most { result ≤ from + 1 }
{
    if old != note.reply {
        out[from] = note;
        return from + 1;
    }
    from
}
