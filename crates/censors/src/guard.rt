// Tests of records: whether the secrets are safe from whoever has a record.
ghost use Rattle.std.specs.Prelude.{◌≡◌, Bool, List};
ghost use Rattle.sheets.specs.declared.SheetSet.{SheetSet};
ghost use Rattle.censors.specs.Builtin.{good_singly, good_jointly};
ghost use Rattle.censors.specs.Guarding.{singly, jointly};
ghost use Rattle.censors.specs.TableRules.{Guards};

use sheets::SheetSet;

// A start test, which keeps the first two laws of a censor.
pub trait Guard {
    ghost good: { SheetSet → List SheetSet → Bool };

    // Whether the record is good.
    fn is_good(known: &SheetSet, secrets: &[SheetSet]) -> bool
        ensures { result ≡ good known.now secrets.now };

    ghost guards: { Guards good };
}

// No single secret contains the record.
#[derive(Clone, Copy, PartialEq, Eq, Debug)]
pub struct Singly;

impl Guard for Singly {
    ghost good = { good_singly };

    ghost guards = { singly };

    fn is_good(known: &SheetSet, secrets: &[SheetSet]) -> bool {
        !known.within_one(secrets)
    }
}

// The secrets together do not contain the record, so that one is always left.
#[derive(Clone, Copy, PartialEq, Eq, Debug)]
pub struct Jointly;

impl Guard for Jointly {
    ghost good = { good_jointly };

    ghost guards = { jointly };

    fn is_good(known: &SheetSet, secrets: &[SheetSet]) -> bool {
        !known.within_union(secrets)
    }
}
