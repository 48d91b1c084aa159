//! What a line gives.
ghost use Rattle.std.specs.Prelude.{◌≡◌, ◌≢◌, Some, List, ℕ, [], ◌∷◌, IfOk, IfErr};
ghost use Rattle.pad_conversation.specs.declared.refused.SpeakerRefused.TheVariants as speaker;
ghost use Rattle.client_script.specs.Words.{call_name, error_line, heard_lines, refused_line};

use crate::words::call_word;
use client_requests::ClientRefused;
use netflux_codec::Word;
use pad_client::Heard;
use pad_conversation::{Said, SpeakerRefused};
use pad_edge::{Wire, Wires};
use std::alloc::{AllocError, Global};

/// Nothing is sent, and these lines are written.
pub(crate) fn says(alloc: Global, lines: Wire) -> Said
    ensures texts { result.texts ≡ [] }
    ensures lines { result.lines ≡ lines }
{
    Said {
        texts: Wires::new(Vec::new(alloc)),
        lines,
    }
}

/// Nothing is sent or written.
pub(crate) fn says_nothing(alloc: Global) -> Said
    ensures texts { result.texts ≡ [] }
    ensures lines { result.lines ≡ [] }
{
    says(alloc, Wire::new(String::new(alloc)))
}

/// Texts are sent.
pub(crate) fn sends(alloc: Global, texts: Wires) -> Said
    ensures texts { result.texts ≡ texts }
    ensures lines { result.lines ≡ [] }
{
    Said {
        texts,
        lines: Wire::new(String::new(alloc)),
    }
}

/// One text is sent.
pub(crate) fn sends_one(alloc: Global, text: Wire) -> Result<Said, AllocError>
    ensures texts { IfOk result (λ said. said.texts ≡ text ∷ []) }
    ensures lines { IfOk result (λ said. said.lines ≡ []) }
{
    let mut texts = Vec::new(alloc);
    if texts.push(text).is_err() {
        return Err(AllocError);
    }
    Ok(sends(alloc, Wires::new(texts)))
}

/// The call of a line was refused by this name.
pub(crate) fn refuses(alloc: Global, line: u64, word: &str) -> Result<Said, AllocError>
    ensures texts { IfOk result (λ said. said.texts ≡ []) }
    ensures lines { IfOk result (λ said. said.lines ≡ refused_line line word.now) }
{
    let told = format!(in alloc; "refused {line} {word}\n")?;
    Ok(says(alloc, Wire::new(told)))
}

/// A request of a line was refused.
pub(crate) fn refuses_call(
    alloc: Global,
    line: u64,
    refused: ClientRefused,
) -> Result<Said, AllocError>
    ensures texts { IfOk result (λ said. said.texts ≡ []) }
    ensures lines { IfOk result (λ said. (name : List ℕ) × (call_name refused ≡ Some name) × (said.lines ≡ refused_line line name)) }
{
    match call_word(refused) {
        Some(word) => refuses(alloc, line, word),
        None => Err(AllocError),
    }
}

/// The line for an error of a request, and why it was not done.
fn error_line(alloc: Global, number: u32, word: Word) -> Result<Wire, AllocError>
    ensures { IfOk result (λ lines. lines ≡ error_line number word) }
{
    let word = word.as_str();
    let told = format!(in alloc; "error {number} {word}\n")?;
    Ok(Wire::new(told))
}

/// The line for what was heard.
pub(crate) fn heard_line(alloc: Global, heard: &Heard) -> Result<Wire, AllocError>
    ensures { IfOk result (λ lines. lines ≡ heard_lines heard.now) }
{
    match heard {
        Heard::Error(number, word) => error_line(alloc, *number, *word),
        _ => Ok(Wire::new(String::new(alloc))),
    }
}
