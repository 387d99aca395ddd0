// What pieces are read as.
ghost use Rattle.std.specs.Prelude.{◌≡◌, ◌<◌, false, is_ok, IfErr, MatchResult};
ghost use Rattle.report.specs.declared.lists.Unread.TheVariants.{Refused};
ghost use Rattle.report.specs.PieceLists.{cut_list, if_whole, words_read, sets_read};
ghost use Rattle.sentences.specs.Lists.{read_list};
ghost use Rattle.sentences.specs.Naming.{naming, words};
ghost use Rattle.sentences.specs.declared.faults.ListKind.TheVariants.{HouseRules, Secrets};

use super::refusals::ExplainedRefusal;
use pieces::Pieces;
use sentences::cuts::CutList;
use sentences::faults::ListFault;
use sentences::lists::SentenceList;
use sentences::names::Names;
use std::fmt;

// Why the pieces give no list.
#[derive(Clone, Copy)]
pub enum Unread {
    TooLarge,
    Refused(ListFault),
}

impl From<ListFault> for Unread {
    ghost from_gives = { λ fault why. why ≡ Refused fault };

    fn from(fault: ListFault) -> Unread {
        Unread::Refused(fault)
    }
}

impl fmt::Display for Unread {
    fn fmt<W: fmt::Write>(&self, f: &mut fmt::Formatter<W>) -> fmt::Result {
        match *self {
            Unread::TooLarge => f.write_str("not read, an offset or a length is above 65535"),
            Unread::Refused(fault) => {
                let explained = ExplainedRefusal::of_list(fault);
                write!(f, "{explained}")
            }
        }
    }
}

// Each reader calls the library itself: one function for the three would need a clause of its closure that is longer than their bodies.
pub fn names_in(pieces: &Pieces) -> Result<Names, Unread>
    ensures left_out { 0 < pieces.now.left_out → is_ok result ≡ false }
    ensures read { words_read result ≡ if_whole pieces.now.left_out (naming (cut_list pieces.now.block.items pieces.now.cuts.items)) }
{
    Ok(Names::parse(&list_of(pieces)?)?)
}

pub fn house_rules_in(pieces: &Pieces, names: &Names) -> Result<SentenceList, Unread>
    ensures left_out { 0 < pieces.now.left_out → is_ok result ≡ false }
    ensures read { sets_read result ≡ if_whole pieces.now.left_out (read_list (words names.now) HouseRules 0 (cut_list pieces.now.block.items pieces.now.cuts.items)) }
{
    Ok(SentenceList::house_rules(names, &list_of(pieces)?)?)
}

pub fn secrets_in(pieces: &Pieces, names: &Names) -> Result<SentenceList, Unread>
    ensures left_out { 0 < pieces.now.left_out → is_ok result ≡ false }
    ensures read { sets_read result ≡ if_whole pieces.now.left_out (read_list (words names.now) Secrets 1 (cut_list pieces.now.block.items pieces.now.cuts.items)) }
{
    Ok(SentenceList::secrets(names, &list_of(pieces)?)?)
}

fn list_of(pieces: &Pieces) -> Result<CutList<'_>, Unread>
    ensures parts { MatchResult result (λ x. (pieces.now.left_out ≡ 0) × (x.block.now ≡ pieces.now.block.items) × (x.cuts.now ≡ pieces.now.cuts.items)) (λ _. 0 < pieces.now.left_out) }
    ensures too_large { IfErr result (λ why. why ≡ Unread.TooLarge) }
{
    pieces.list().ok_or(Unread::TooLarge)
}
