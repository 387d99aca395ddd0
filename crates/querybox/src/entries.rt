// What is done to one counterparty of the table, on loan. `p < count` says that an entry is lent.
ghost use Rattle.std.specs.Prelude.{◌≡◌, ℕ, ◌<◌, length, Some};
ghost use Rattle.tables.specs.Entries.{entries};
ghost use Rattle.sentences.specs.Lists.{sets_of};
ghost use Rattle.censors.specs.Questions.{value_in};
ghost use Rattle.histories.specs.declared.data.Pending.{Pending};
ghost use Rattle.histories.specs.Calls.{House, asked, entered as after_entry};
ghost use Rattle.querybox.specs.Parties.{blank};
ghost use Rattle.querybox.specs.Entries.{entry_at, Moved};

use super::inner::Inner;
use super::party::Party;
use censors::question::{Decision, Question};
use sheets::SheetSet;

// The question is kept with the decision on it.
pub(crate) fn keep(inner: &mut Inner<Party>, p: usize, question: Question, decision: Decision)
    requires there { p < inner.old.count }
    requires room { length (entries (entry_at inner.old p blank).log) < 64 }
    ensures { (h : House) (s : ℕ) → decision ≡ h.decided (entry_at inner.old p blank).known (sets_of (entry_at inner.old p blank).secrets) question (value_in question s) → Moved (asked h s question) p inner.old inner.new }
{
    if let Some(party) = inner.lend(p) {
        party.keep(question, decision);
    }
}

// What is pending goes into the log, and `known` is the record after it.
pub(crate) fn append(inner: &mut Inner<Party>, p: usize, known: SheetSet)
    requires { p < inner.old.count }
    ensures { (h : House) (e : Pending) → (entry_at inner.old p blank).pending ≡ Some e → known ≡ h.after (entry_at inner.old p blank).known (sets_of (entry_at inner.old p blank).secrets) e.question e.decision.reply → Moved (after_entry h e) p inner.old inner.new }
{
    if let Some(party) = inner.lend(p) {
        party.append(known);
    }
}
