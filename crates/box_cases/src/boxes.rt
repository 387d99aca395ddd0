// The boxes that stories are about, and changes of their facts. Most have the facts full, late and sold, of which full and late are true.
use super::calls::Opening;
use super::lists::Listing;
use censors::builtin::Builtin;
use histories::data::Change;

pub const THREE_NAMES: Listing = Listing::Texts(&["full", "late", "sold"]);

pub const EIGHT_NAMES: Listing = Listing::Texts(&["a", "b", "c", "d", "e", "f", "g", "h"]);

pub const NO_RULES: Listing = Listing::Texts(&[]);

// The secret of most stories: true in the sheets 3 and 7.
pub const BOTH: Listing = Listing::Texts(&["full & late"]);

// Two secrets that cover the sheets in which full is true between them.
pub const EITHER: Listing = Listing::Texts(&["full & late", "full & !late"]);

pub const REFUSING: Opening = Opening {
    censor: Builtin::Refusing,
    number: 7,
    names: THREE_NAMES,
    rules: NO_RULES,
    sheet: 3,
};

pub const LYING: Opening = Opening {
    censor: Builtin::Lying,
    ..REFUSING
};

pub const COMBINED: Opening = Opening {
    censor: Builtin::Combined,
    ..REFUSING
};

// Full and late must not both be true; full is, the others are not.
pub const RULED: Opening = Opening {
    rules: Listing::Texts(&["!full | !late"]),
    sheet: 1,
    ..REFUSING
};

// Some fact must be true, and full and late must not both be.
pub const TWO_RULES: Opening = Opening {
    rules: Listing::Texts(&["full | late | sold", "!full | !late"]),
    sheet: 1,
    ..REFUSING
};

// Eight facts, all true.
pub const EIGHT_FACTS: Opening = Opening {
    names: EIGHT_NAMES,
    sheet: 255,
    ..REFUSING
};

// As the refusing box, but for its number.
pub const OTHER_NUMBER: Opening = Opening {
    number: 8,
    ..REFUSING
};

// As the refusing box, number included, but no fact is true.
pub const OTHER_SHEET: Opening = Opening {
    sheet: 0,
    ..REFUSING
};

pub const FULL_TRUE: Change = Change {
    fact: 0,
    value: true,
};

pub const FULL_FALSE: Change = Change {
    fact: 0,
    value: false,
};

pub const LATE_TRUE: Change = Change {
    fact: 1,
    value: true,
};

pub const LATE_FALSE: Change = Change {
    fact: 1,
    value: false,
};

pub const SOLD_TRUE: Change = Change {
    fact: 2,
    value: true,
};

pub const SOLD_FALSE: Change = Change {
    fact: 2,
    value: false,
};
