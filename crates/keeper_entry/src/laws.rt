ghost use Rattle.std.specs.Prelude.{◌≡◌, ◌<◌, ◌≤◌, ◌^◌, List, ℕ, length};
ghost use Rattle.std.specs.Str.{IsUtf8};
ghost use Rattle.pad_message.specs.declared.content.TheConstants.{LONGEST_CONTENT};
ghost use Rattle.pad_text.specs.Digits.{IsDigits};
ghost use Rattle.keeper_entry.specs.Entry.{payload_of, moment_in, sender_in, content_in, IsEntry};

/// The payload of an entry holds an entry, with that moment, that sender and that content.
pub fn payloads_hold_their_entries()
    ensures { (moment : ℕ) (sender content : List ℕ) → moment < 2 ^ 64 → IsDigits 32 sender → IsUtf8 content → length content ≤ LONGEST_CONTENT
        → IsEntry (payload_of moment sender content) × (moment_in (payload_of moment sender content) ≡ moment)
        × (sender_in (payload_of moment sender content) ≡ sender) × (content_in (payload_of moment sender content) ≡ content) }
{}
