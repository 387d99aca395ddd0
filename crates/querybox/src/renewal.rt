// Judging logs again, once the sheet has changed. A counterparty is lent by the table meanwhile, since a copy of it for each question costs more than most decisions.
ghost use Rattle.std.specs.Prelude.{◌≡◌, ◌+◌, ◌<◌, ◌≤◌, map, length};
ghost use Rattle.tables.specs.Entries.{entries};
ghost use Rattle.histories.specs.Calls.{changed, notes as notes_of};
ghost use Rattle.querybox.specs.Parties.{blank, party_of};
ghost use Rattle.querybox.specs.Entries.{entry_at, parties_of, Moved};
ghost use Rattle.querybox.specs.Notes.{Written};
ghost use Rattle.querybox.specs.Renewals.{renewed_by, rejudged_by};

use super::inner::Inner;
use super::notes::write_notes;
use super::party::Party;
use censors::censor::Censor;
use histories::data::Note;

// The censor that judges logs again, and the sheet that it judges them on.
#[derive(Drop)]
pub(crate) struct Renewal<'a, C> {
    pub(crate) censor: &'a C,
    pub(crate) sheet: u16,
}

impl<'a, C: Censor> Renewal<'a, C> {
    // Every counterparty's log is judged again, and a note is written on each reply that has changed, by counterparty, then place. The number of notes is returned.
    pub(crate) fn renew_all(&self, inner: &mut Inner<Party>, out: &mut [Note]) -> usize
        requires { 512 ≤ length out.old }
        ensures leaves { parties_of inner.new ≡ map (renewed_by C.Censor.good C.Censor.decided C.Censor.after self.now) (parties_of inner.old) }
        ensures writes { Written out.old 0 (notes_of 0 (parties_of inner.old) (map (renewed_by C.Censor.good C.Censor.decided C.Censor.after self.now) (parties_of inner.old))) result out.new }
    {
        let mut end = 0;
        // By number: no iterator lends the entries one at a time.
        for p in 0..inner.count {
            end = self.renew_one(inner, p, out, end);
        }
        end
    }

    // One counterparty's log is judged again, and the notes on it are written from the index `from` on.
    fn renew_one(&self, inner: &mut Inner<Party>, p: usize, out: &mut [Note], from: usize) -> usize
        requires there { p < inner.old.count }
        requires room { from + 64 ≤ length out.old }
        ensures moves { Moved (renewed_by C.Censor.good C.Censor.decided C.Censor.after self.now) p inner.old inner.new }
        ensures writes { Written out.old from (changed p 0 (party_of (entry_at inner.old p blank)).log (party_of (entry_at inner.new p blank)).log) result out.new }
        ensures most { result ≤ from + 64 }
    {
        let old = inner.entry(p);
        self.renew_entry(inner, p);
        let new = inner.entry(p);
        write_notes(old.log.as_slice(), new.log.as_slice(), p, out, from)
    }

    // The entry p is judged again, on loan. `p < count` says that it is lent.
    fn renew_entry(&self, inner: &mut Inner<Party>, p: usize)
        requires { p < inner.old.count }
        ensures { Moved (renewed_by C.Censor.good C.Censor.decided C.Censor.after self.now) p inner.old inner.new }
    {
        if let Some(party) = inner.lend(p) {
            self.renew(party);
        }
    }

    // The questions of one counterparty are judged again, in their order, from the record that it started from.
    fn renew(&self, party: &mut Party)
        ensures { party_of party.new ≡ renewed_by C.Censor.good C.Censor.decided C.Censor.after self.now (party_of party.old) }
    {
        party.restart();
        for place in 0..party.log.len() {
            self.rejudge(party, place);
        }
    }

    // The question at a place is judged again from the record that stands.
    fn rejudge(&self, party: &mut Party, place: usize)
        requires { place < length (entries party.old.log) }
        ensures { party_of party.new ≡ rejudged_by C.Censor.good C.Censor.decided C.Censor.after self.now place (party_of party.old) }
    {
        let question = party.log.as_slice()[place].question;
        let decision = self.censor.decide(
            &party.known,
            party.secrets.sets(),
            &question,
            question.value_in(self.sheet),
        );
        let known = self.censor.record_after(
            &party.known,
            party.secrets.sets(),
            &question,
            decision.reply,
        );
        party.replace(place, decision.reply, known);
    }
}
