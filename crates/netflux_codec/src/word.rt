ghost use Rattle.std.specs.Prelude.{◌≡◌, ◌≢◌, IfNone, IfSome};
ghost use Rattle.netflux_codec.specs.Word.{word_text};

/// Why a request was not done.
#[derive(Clone, Copy, Debug, PartialEq, Eq)]
pub enum Word {
    /// The text is no request, or no question to the keeper.
    Einval,
    /// The channel was joined before.
    Ejoined,
    /// There is no such channel, connection or target.
    Enoent,
    /// The content is too long.
    Etoobig,
    /// There are too many connections, channels or entries.
    Efull,
    /// The channel's file is damaged.
    Edamaged,
    /// The store failed.
    Estore,
}

impl Word {
    ghost use Rattle.netflux_codec.specs.declared.word.Word.{Word};

    /// How the word is written.
    pub fn as_str(self) -> &'static str
        ensures { result.now ≡ word_text self }
    {
        match self {
            Word::Einval => "EINVAL",
            Word::Ejoined => "EJOINED",
            Word::Enoent => "ENOENT",
            Word::Etoobig => "ETOOBIG",
            Word::Efull => "EFULL",
            Word::Edamaged => "EDAMAGED",
            Word::Estore => "ESTORE",
        }
    }

    /// The word that is written so.
    pub(crate) fn from_text(text: &str) -> Option<Word>
        ensures some { IfSome result (λ word. word_text word ≡ text.now) }
        ensures none { IfNone result ((word : Word) → word_text word ≢ text.now) }
    {
        match text {
            "EINVAL" => Some(Word::Einval),
            "EJOINED" => Some(Word::Ejoined),
            "ENOENT" => Some(Word::Enoent),
            "ETOOBIG" => Some(Word::Etoobig),
            "EFULL" => Some(Word::Efull),
            "EDAMAGED" => Some(Word::Edamaged),
            "ESTORE" => Some(Word::Estore),
            _ => None,
        }
    }
}
