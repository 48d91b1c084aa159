ghost use Rattle.std.specs.Prelude.{◌≡◌, ◌≢◌, ◌+◌, ◌<◌, ◌≤◌, ◌^◌, ◌++◌, ◌∷◌, false, All, List, ℕ, length, Some};
ghost use Rattle.log_format.specs.File.{file, opens, doubt_of, is_entry, IsEntries};

/// The file of a list of payloads opens as that list.
pub fn reopens()
    ensures { (magic : List ℕ) (payloads : List (List ℕ)) → length magic ≡ 8 → All (λ payload. length payload < 2 ^ 32) payloads
        → opens magic (file magic payloads) ≡ Some payloads }
{}

/// Were the last gate of a file of more than nine bytes open, it would open as what it opens as and its doubt.
pub fn opens_with_its_doubt()
    ensures { (magic front rest : List ℕ) (byte : ℕ) (payloads : List (List ℕ)) → length magic ≡ 8 → IsEntries front payloads
        → is_entry (byte ∷ rest) ≡ false → byte ≢ 0 → 1 ≤ length front + length rest
        → opens magic (magic ++ (front ++ 1 ∷ rest)) ≡ Some (payloads ++ doubt_of (magic ++ (front ++ byte ∷ rest))) }
{}
