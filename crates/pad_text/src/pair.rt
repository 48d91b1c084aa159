//! The two units of a scalar above U+FFFF (Unicode Standard, section 3.9, UTF-16).
ghost use Rattle.std.specs.Prelude.{◌≡◌};
ghost use Rattle.std.specs.Char.Utf16.{is_high_surrogate, is_low_surrogate};

/// Whether a unit is the first of a pair: a high surrogate, D800 to DBFF.
pub fn is_first_of_pair(unit: u16) -> bool
    ensures { result ≡ is_high_surrogate unit }
{
    matches!(unit, 0xD800..=0xDBFF)
}

/// Whether a unit is the second of a pair: a low surrogate, DC00 to DFFF.
pub fn is_second_of_pair(unit: u16) -> bool
    ensures { result ≡ is_low_surrogate unit }
{
    matches!(unit, 0xDC00..=0xDFFF)
}
