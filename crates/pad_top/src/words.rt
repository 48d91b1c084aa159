ghost use Rattle.std.specs.Prelude.{◌≡◌, ◌≢◌, ◌↔◌, map, string_bytes, IsTrue, IfSome, IfNone};
ghost use Rattle.pad_text.specs.Digits.{IsDigits};
ghost use Rattle.pad_top.specs.Words.{IsReplay, IsLog, AsksLog, IsServe, AsksServe, IsGenerate, AsksGenerate, IsClient, AsksClient};

use netflux_codec::Channel;
use pad_generator::MOST_MESSAGES;
use pad_script::{long_number, number_within};
use pad_serve::ServeWords;

/// How many turns a server has at most.
pub const MOST_TURNS: u32 = 1_000_000_000;

/// The folder and the channel of a command `log`.
#[derive(Clone, Copy)]
pub(crate) struct LogWords<'a> {
    pub(crate) folder: &'a str,
    pub(crate) channel: Channel,
}

/// The number and the count of a command `generate`.
#[derive(Clone, Copy)]
pub(crate) struct GenerateWords {
    pub(crate) number: u64,
    pub(crate) count: u32,
}

/// Whether the words ask for a replay.
pub(crate) fn is_replay(words: &[String]) -> bool
    ensures { IsTrue result ↔ IsReplay (map string_bytes words.now) }
{
    match words {
        [word] => word.as_str() == "replay",
        _ => false,
    }
}

/// What the words say of a log, if they ask for one.
pub(crate) fn log_words(words: &[String]) -> Option<LogWords<'_>>
    ensures some { IfSome result (λ log. IsLog (map string_bytes words.now) log.channel) }
    ensures none { IfNone result (¬ (AsksLog (map string_bytes words.now))) }
{
    match words {
        [word, folder, channel] if word.as_str() == "log" && !folder.as_str().is_empty() => {
            match Channel::from_hex(channel.as_str()) {
                Some(channel) => Some(LogWords {
                    folder: folder.as_str(),
                    channel,
                }),
                None => None,
            }
        }
        _ => None,
    }
}

/// What the words say of serving, if they ask for it.
pub(crate) fn serve_words(words: &[String]) -> Option<ServeWords<'_>>
    ensures some { IfSome result (λ serve. IsServe (map string_bytes words.now) serve.address.now serve.folder.now serve.turns) }
    ensures none { IfNone result (¬ (AsksServe (map string_bytes words.now))) }
{
    match words {
        [word, address, folder, turns]
            if word.as_str() == "serve"
                && !address.as_str().is_empty()
                && !folder.as_str().is_empty() => {
            match number_within(turns.as_str(), 1, MOST_TURNS) {
                Some(turns) => Some(ServeWords {
                    address: address.as_str(),
                    folder: folder.as_str(),
                    turns: u64::from(turns),
                }),
                None => None,
            }
        }
        _ => None,
    }
}

/// What the words say of generating, if they ask for it.
pub(crate) fn generate_words(words: &[String]) -> Option<GenerateWords>
    ensures some { IfSome result (λ generate. IsGenerate (map string_bytes words.now) generate.number generate.count) }
    ensures none { IfNone result (¬ (AsksGenerate (map string_bytes words.now))) }
{
    match words {
        [word, number, count] if word.as_str() == "generate" => {
            match long_number(number.as_str()) {
                Some(number) => match number_within(count.as_str(), 1, MOST_MESSAGES) {
                    Some(count) => Some(GenerateWords { number, count }),
                    None => None,
                },
                None => None,
            }
        }
        _ => None,
    }
}

/// The address that a client connects to, if the words ask for one.
pub(crate) fn client_address(words: &[String]) -> Option<&str>
    ensures some { IfSome result (λ address. IsClient (map string_bytes words.now) address.now) }
    ensures none { IfNone result (¬ (AsksClient (map string_bytes words.now))) }
{
    match words {
        [word, address] if word.as_str() == "client" && !address.as_str().is_empty() => {
            Some(address.as_str())
        }
        _ => None,
    }
}
