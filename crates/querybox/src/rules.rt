// House rules, put to sheets.
ghost use Rattle.std.specs.Prelude.{◌≡◌, length};
ghost use Rattle.sentences.specs.Lists.{sets_of};
ghost use Rattle.sentences.specs.Naming.{words};
ghost use Rattle.histories.specs.Calls.{first_untrue, keeping};

use sentences::lists::SentenceList;
use sentences::names::Names;
use sheets::SheetSet;

// The index of the first rule that is untrue in the sheet.
pub(crate) fn untrue_rule(rules: &SentenceList, sheet: u16) -> Option<usize>
    ensures { result ≡ first_untrue (sets_of rules.now) sheet }
{
    rules.sets().iter().position(|set| !set.has(sheet))
}

// The sheets of the box that keep all rules.
pub(crate) fn lawful_sheets(names: &Names, rules: &SentenceList) -> SheetSet
    ensures { result ≡ keeping (length (words names.now)) (sets_of rules.now) }
{
    rules.keeping(names)
}
