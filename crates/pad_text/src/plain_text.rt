ghost use Rattle.std.specs.Prelude.{◌≡◌, ◌∷◌, ◌&&◌, ℕ, List};
ghost use Rattle.pad_text.specs.Place.{may_stand, plain_at};
ghost use Rattle.pad_text.specs.Plain.{plain};

/// Where a byte of a text stands.
#[derive(Clone, Copy)]
enum Place {
    /// Outside the strings.
    Outside,
    /// In a string.
    Inside,
    /// In a string, behind a `\`.
    Escaped,
}

impl Place {
    /// Where the byte after this one stands.
    fn after(self, byte: u8) -> Place
        ensures { (rest : List ℕ) → plain_at self (byte ∷ rest) ≡ (may_stand self byte && plain_at result rest) }
    {
        match (self, byte) {
            (Place::Outside, b'"') => Place::Inside,
            (Place::Inside, b'"') => Place::Outside,
            (Place::Inside, b'\\') => Place::Escaped,
            (Place::Escaped, _) => Place::Inside,
            (place, _) => place,
        }
    }

    /// Whether a plain text may have this byte here.
    fn takes(self, byte: u8) -> bool
        ensures { result ≡ may_stand self byte }
    {
        !matches!(
            (self, byte),
            (Place::Outside, b'-' | b'+' | b'.' | b'e' | b'E')
        )
    }
}

/// Whether a text is plain: none of `-`, `+`, `.`, `e` and `E` stands outside its strings, which are found from left to right.
/// In a plain JSON text (RFC 8259) each number is digits alone, and neither `true` nor `false` stands.
pub fn plain(text: &str) -> bool
    ensures { result ≡ plain text.now }
{
    let mut place = Place::Outside;
    for byte in text.as_bytes() {
        if !place.takes(*byte) {
            return false;
        }
        place = place.after(*byte);
    }
    true
}
