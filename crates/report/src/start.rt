// The sheets of a box, and those of them that a record starts from.
ghost use Rattle.std.specs.Prelude.{◌≡◌, ◌^◌, ◌++◌, length, fold, nat_lt};
ghost use Rattle.std.specs.Option.{option_to_list};
ghost use Rattle.sheets.specs.Sets.{set_of, meet as meet_of};
ghost use Rattle.sentences.specs.Lists.{sets_of};
ghost use Rattle.sentences.specs.Naming.{words as words_of};

use sentences::lists::SentenceList;
use sentences::names::Names;
use sheets::SheetSet;

// The sheets of a box with these names.
pub fn sheets_of(names: &Names) -> SheetSet
    ensures { result ≡ set_of (λ s. nat_lt s (2 ^ length (words_of names.now))) }
{
    SheetSet::below(names.count())
}

// The sheets that keep every house rule, and the prior where there is one.
pub fn starting_record(names: &Names, rules: &SentenceList, prior: Option<SheetSet>) -> SheetSet
    ensures { result ≡ fold meet_of (set_of (λ s. nat_lt s (2 ^ length (words_of names.now)))) (sets_of rules.now ++ option_to_list prior) }
{
    let kept = rules.keeping(names);
    prior.map_or(kept, |prior| kept.meet(&prior))
}
