// Reading a list of sentences.
ghost use Rattle.std.specs.Prelude.{◌≡◌, ◌^◌, length, fold, nat_lt};
ghost use Rattle.sheets.specs.Sets.{set_of, meet as meet_of};
ghost use Rattle.sentences.specs.declared.faults.ListKind.TheVariants.{HouseRules, Secrets};
ghost use Rattle.sentences.specs.Lists.{read_list, sets_of, sets_read};
ghost use Rattle.sentences.specs.Naming.{words};

use super::super::cuts::CutList;
use super::super::faults::{ListFault, ListKind};
use super::super::names::Names;
use super::super::reading::parse;
use super::SentenceList;
use sheets::SheetSet;
use tables::filled::Filled;

impl SentenceList {
    // House rules: none to eight sentences.
    pub fn house_rules(names: &Names, list: &CutList) -> Result<SentenceList, ListFault>
        ensures { sets_read result ≡ read_list (words names.now) HouseRules 0 list.now }
    {
        parse_list(names, ListKind::HouseRules, 0, list)
    }

    // Secrets: one to eight sentences.
    pub fn secrets(names: &Names, list: &CutList) -> Result<SentenceList, ListFault>
        ensures { sets_read result ≡ read_list (words names.now) Secrets 1 list.now }
    {
        parse_list(names, ListKind::Secrets, 1, list)
    }

    // The sheets of a box with these names in which every sentence is true.
    pub fn keeping(&self, names: &Names) -> SheetSet
        ensures { result ≡ fold meet_of (set_of (λ s. nat_lt s (2 ^ length (words names.now)))) (sets_of self.now) }
    {
        self.sets()
            .iter()
            .fold(SheetSet::below(names.count()), |kept, set| kept.meet(set))
    }

    // The sets of the sentences, in their order.
    pub fn sets(&self) -> &[SheetSet]
        ensures { result.now ≡ sets_of self.now }
    {
        self.sets.as_slice()
    }
}

fn parse_list(
    names: &Names,
    kind: ListKind,
    least: usize,
    list: &CutList,
) -> Result<SentenceList, ListFault>
    ensures { sets_read result ≡ read_list (words names.now) kind least list.now }
{
    list.test(kind, least)?;
    let mut sets = Filled::new(SheetSet::empty());
    for (index, cut) in list.cuts.iter().enumerate() {
        let text = list.piece(*cut);
        let meaning = parse(names, text).map_err(|fault| ListFault::Sentence(index, fault))?;
        sets.push(meaning.sheets);
    }
    Ok(SentenceList { sets })
}
