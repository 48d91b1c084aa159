ghost use Rattle.std.specs.Prelude.{◌≡◌};
ghost use Rattle.keeper_entry.specs.History.{key_of as key_in, is_checkpoint as begins_as_checkpoint};

use pad_text::Name;

/// What stands in front of a content that is a checkpoint for the keeper.
const MARK: &str = "cp|";

/// The key of a content: the SHA-256 of its bytes without one `cp|` in front.
pub fn key_of(content: &str) -> Name
    ensures { result ≡ key_in content.now }
{
    Name::of_bytes(content.strip_prefix(MARK).unwrap_or(content).as_bytes())
}

/// Whether a content begins with `cp|`.
pub fn is_checkpoint(content: &str) -> bool
    ensures { result ≡ begins_as_checkpoint content.now }
{
    content.starts_with(MARK)
}
