use super::split_line;

/// Texts, each with its lines in order.
const TEXTS: &[(&str, &[&str])] = &[
    ("", &[]),
    ("a", &["a"]),
    ("\n", &[""]),
    ("a\n", &["a"]),
    ("\n\nb", &["", "", "b"]),
    ("one\r\ntwo\n\r", &["one\r", "two", "\r"]),
];

#[test]
fn lines_come_one_after_another(rt: HostRuntime) {
    for (text, lines) in TEXTS {
        let mut rest = text.as_bytes();
        for want in *lines {
            let (line, after) = split_line(rest).unwrap_or((b"none", b""));
            assert_eq!(rt; line, want.as_bytes(), "in {text}");
            rest = after;
        }
        assert!(rt; split_line(rest).is_none(), "behind {text}");
    }
}
