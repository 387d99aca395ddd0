// What a counterparty's log and record go through.
ghost use Rattle.std.specs.Prelude.{◌≡◌, ℕ, ◌<◌, length, Some};
ghost use Rattle.tables.specs.Entries.{entries};
ghost use Rattle.sentences.specs.Lists.{sets_of};
ghost use Rattle.censors.specs.Questions.{value_in};
ghost use Rattle.histories.specs.declared.data.Pending.{Pending};
ghost use Rattle.histories.specs.Calls.{House, newcomer, asked, entered as after_entry};
ghost use Rattle.querybox.specs.Parties.{party_of, replaced, restarted};

use super::Party;
use censors::question::{Decision, Question, Reply};
use histories::data::{Entry, Pending};
use sentences::lists::SentenceList;
use sheets::SheetSet;
use tables::filled::Filled;

impl Party {
    // A counterparty that has asked nothing yet.
    pub(crate) fn new(start: SheetSet, secrets: SentenceList) -> Party
        ensures { (h : House) → party_of result ≡ newcomer h start (sets_of secrets) }
    {
        Party {
            start,
            secrets,
            log: Filled::new(Entry {
                question: Question::new(start),
                reply: Reply::Mum,
            }),
            known: start,
            pending: None,
        }
    }

    // The question is kept with the decision on it, until its slip comes back: this is `asked` of every house that decides so.
    pub(crate) fn keep(&mut self, question: Question, decision: Decision)
        requires { length (entries self.old.log) < 64 }
        ensures { (h : House) (s : ℕ) → decision ≡ h.decided self.old.known (sets_of self.old.secrets) question (value_in question s) → party_of self.new ≡ asked h s question (party_of self.old) }
    {
        self.pending = Some(Pending { question, decision });
    }

    // What is pending goes into the log, and `known` is the record after it: this is the entry of every house whose censor leaves that record. Nothing is done where nothing is pending.
    pub(crate) fn append(&mut self, known: SheetSet)
        ensures { (h : House) (e : Pending) → self.old.pending ≡ Some e → known ≡ h.after self.old.known (sets_of self.old.secrets) e.question e.decision.reply → party_of self.new ≡ after_entry h e (party_of self.old) }
    {
        if let Some(pending) = self.pending {
            self.log.push(Entry {
                question: pending.question,
                reply: pending.decision.reply,
            });
            self.known = known;
            self.pending = None;
        }
    }

    // The record is again what it started from.
    pub(crate) fn restart(&mut self)
        ensures { party_of self.new ≡ restarted (party_of self.old) }
    {
        self.known = self.start;
    }

    // The reply at a place and the record are replaced; the question stands.
    pub(crate) fn replace(&mut self, place: usize, reply: Reply, known: SheetSet)
        requires { place < length (entries self.old.log) }
        ensures { party_of self.new ≡ replaced place reply known (party_of self.old) }
    {
        let question = self.log.as_slice()[place].question;
        self.log.replace(place, Entry { question, reply });
        self.known = known;
    }
}
