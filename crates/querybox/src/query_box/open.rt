// Opening a box.
ghost use Rattle.std.specs.Prelude.{◌≡◌, Ok, Err};
ghost use Rattle.querybox.specs.Opening.{opens, opened_as};
ghost use Rattle.querybox.specs.Promise.{Promise};

use super::super::inner::Inner;
use super::super::party::Party;
use super::super::rules::untrue_rule;
use super::QueryBox;
use censors::censor::Censor;
use histories::data::BoxFault;
use sentences::cuts::CutList;
use sentences::lists::SentenceList;
use sentences::names::Names;
use sheets::SheetSet;

impl<C: Censor + Drop> QueryBox<C> {
    // A box with no counterparty on the sheet, or the first fault: of the names, the house rules, then the sheet.
    // Whatever is done with a box that was opened, it keeps the promise.
    pub fn open(
        censor: C,
        number: u8,
        names: &CutList,
        rules: &CutList,
        sheet: u16,
    ) -> Result<QueryBox<C>, BoxFault>
        ensures is { opened_as C.Censor.good C.Censor.decided C.Censor.after result ≡ opens (C.Censor.good censor) (C.Censor.decided censor) (C.Censor.after censor) number names.now rules.now sheet }
        ensures censor { elim result [ Ok b ↦ b.censor ≡ censor | Err f ↦ Unit ] }
        ensures promise { elim result [ Ok b ↦ Promise C.Censor.good C.Censor.decided C.Censor.after b | Err f ↦ Unit ] }
    {
        let names = Names::parse(names).map_err(BoxFault::Names)?;
        let rules = SentenceList::house_rules(&names, rules).map_err(BoxFault::HouseRules)?;
        if sheet >= 1 << names.count() {
            return Err(BoxFault::Sheet(sheet));
        }
        if let Some(index) = untrue_rule(&rules, sheet) {
            return Err(BoxFault::HouseRule(index));
        }
        // No counterparty counts yet, so it does not matter which one fills the table.
        let nobody = Party::new(SheetSet::empty(), rules);
        Ok(QueryBox {
            censor,
            number,
            names,
            rules,
            sheet,
            inner: Inner::new(nobody),
        })
    }
}
