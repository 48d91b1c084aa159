ghost use Rattle.std.specs.Prelude.{◌≡◌, ◌==◌, ◌<◌, ◌-◌, [], ◌∷◌, length, drop, position, MatchOption, IfSome};
ghost use Rattle.pad_lines.specs.Line.{newline, lines_of};

/// The first line of a text, without what ends it, and the text after it. None of an empty text.
pub fn split_line(text: &[u8]) -> Option<(&[u8], &[u8])>
    ensures lines { MatchOption result (lines_of text.now ≡ [])
        (λ split. lines_of text.now ≡ split.0.now ∷ lines_of split.1.now) }
    ensures shorter { IfSome result (λ split. length split.1.now < length text.now) }
    ensures end { IfSome result (λ split. split.1.now ≡ drop (length text.now - length split.1.now) text.now) }
{
    match line_end(text) {
        Some(end) => Some((&text[..end], &text[end + 1..])),
        None if text.is_empty() => None,
        None => Some((text, b"")),
    }
}

/// The place of the first newline of a text.
fn line_end(text: &[u8]) -> Option<usize>
    ensures first { result ≡ position (λ byte. byte == newline) text.now }
    ensures within { IfSome result (λ end. end < length text.now) }
{
    text.iter().position(|byte| *byte == b'\n')
}
