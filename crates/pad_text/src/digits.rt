ghost use Rattle.std.specs.Prelude.{◌↔◌, IsTrue};
ghost use Rattle.pad_text.specs.Digits.{IsDigits};

/// Whether a text is so many lower-case hexadecimal digits and nothing else.
pub fn is_lower_hex(text: &str, count: usize) -> bool
    ensures { IsTrue result ↔ IsDigits count text.now }
{
    text.len() == count
        && text
            .bytes()
            .all(|byte| matches!(byte, b'0'..=b'9' | b'a'..=b'f'))
}
