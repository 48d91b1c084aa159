ghost use Rattle.std.specs.Prelude.{◌≡◌};
ghost use Rattle.pad_message.specs.Content.{without_mark};

/// The longest content, in bytes.
pub const LONGEST_CONTENT: usize = 2_097_152;

/// The most operations of a message in a content.
pub const MOST_OPERATIONS: usize = 4096;

/// What may stand in front of a content.
const MARK: &str = "cp|";

/// A content without the mark, where one stands in front.
pub(crate) fn without_mark(content: &str) -> &str
    ensures { result.now ≡ without_mark content.now }
{
    content.strip_prefix(MARK).unwrap_or(content)
}
