//! Laws over the definitions alone. Each function does nothing: its contract is the law.

ghost use Rattle.pad_list.specs.Number.{OneNumber};

/// Two counts of the same numbers are equal.
pub fn one_number()
    ensures { OneNumber }
{}
