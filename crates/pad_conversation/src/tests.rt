//! A speaker that says its commands aloud and waits for as many texts, over a link in memory.
ghost use Rattle.std.specs.Prelude.{⊤, true, IfOk, IfErr, OnOk};

use super::{ConversationRefused, Said, Speaker, SpeakerRefused, converse};
use pad_edge::{MemLink, MemSink, Wire, Wires};
use std::alloc::Global;
use std::test::Fail;

/// Says a number, writes it, and hears so many texts. It refuses 9, and the text `full`. Contracts know nothing of its states.
#[derive(Drop)]
struct Counter {
    left: u64,
}

impl Speaker<u64> for Counter {
    ghost State = { Unit {0} };

    ghost machine = { record {
      does = λ state command texts lines next. Unit {0};
      hears = λ state text lines next. Unit {0};
      waits = λ state. true;
      overfills = λ state command. Unit {0};
      overflows = λ state text. Unit {0};
      may_do = λ state command. Unit {0};
      may_hear = λ state text. Unit {0};
    } };

    ghost stands = { λ counter state. ⊥ };

    ghost lasts = { λ counter commands. Unit {0} };

    fn command(&mut self, alloc: Global, command: &u64) -> Result<Said, SpeakerRefused> {
        if *command == 9 {
            return Err(SpeakerRefused::Full);
        }
        self.left = *command;
        let mut texts = Vec::new(alloc);
        let text = Wire::new(format!(in alloc; "say {command}")?);
        if texts.push(text).is_err() {
            return Err(SpeakerRefused::NoMemory);
        }
        let lines = Wire::new(format!(in alloc; "{command}\n")?);
        Ok(Said {
            texts: Wires::new(texts),
            lines,
        })
    }

    fn hear(&mut self, alloc: Global, text: &str) -> Result<Wire, SpeakerRefused> {
        if text == "full" {
            return Err(SpeakerRefused::Full);
        }
        self.left = self.left.saturating_sub(1);
        Ok(Wire::new(format!(in alloc; "{text}\n")?))
    }

    fn waits(&self) -> bool {
        self.left > 0
    }
}

/// What became of commands over a link that gives these texts and whose calls of these numbers fail: how it ended, what was sent and
/// what was written, each text with its newline.
fn conversed(
    alloc: Global,
    commands: &[u64],
    texts: &[&str],
    failing: &[u64],
    room: usize,
) -> Result<(Result<(), ConversationRefused>, String), Fail> {
    let mut wires = Vec::new(alloc);
    for text in texts {
        wires.push(Wire::new(String::from_str(alloc, text)?))?;
    }
    let mut link = MemLink::new(wires, failing.to_vec(alloc)?);
    let mut output = MemSink::new(vec![in alloc; b'.'; room]?, 3, Vec::new(alloc));
    let mut counter = Counter { left: 0 };
    let ended = converse(alloc, commands, &mut counter, &mut link, &mut output);
    let mut told = String::new(alloc);
    for text in link.sent() {
        write!(told, "{}, ", text.as_str())?;
    }
    for byte in output.as_slice() {
        told.push(char::from(*byte))?;
    }
    Ok((ended, told))
}

#[test]
fn commands_are_said_and_answers_written(rt: HostRuntime) -> Result<(), Fail> {
    let alloc = rt.alloc();
    let (ended, told) = conversed(alloc, &[0, 2, 1], &["a", "b", "c"], &[], 14)?;
    assert_eq!(rt; ended, Ok(()));
    assert_eq!(rt; told.as_str(), "say 0, say 2, say 1, 0\n2\na\nb\n1\nc\n");
    Ok(())
}

#[test]
fn each_end_is_told(rt: HostRuntime) -> Result<(), Fail> {
    let alloc = rt.alloc();
    // calls 0 to 4: a send, two texts, a send, a text
    for failing in 0..5 {
        let (ended, _) = conversed(alloc, &[2, 1], &["a", "b", "c"], &[failing], 14)?;
        assert_eq!(rt; ended, Err(ConversationRefused::Link));
    }
    let (ended, told) = conversed(alloc, &[2, 1], &["a", "b"], &[], 8)?;
    assert_eq!(rt; ended, Err(ConversationRefused::Ended));
    assert_eq!(rt; told.as_str(), "say 2, say 1, 2\na\nb\n1\n");
    let (ended, told) = conversed(alloc, &[1, 9, 1], &["a", "b"], &[], 4)?;
    assert_eq!(rt; ended, Err(ConversationRefused::Full));
    assert_eq!(rt; told.as_str(), "say 1, 1\na\n");
    let (ended, told) = conversed(alloc, &[2, 1], &["a", "full"], &[], 4)?;
    assert_eq!(rt; ended, Err(ConversationRefused::Full));
    assert_eq!(rt; told.as_str(), "say 2, 2\na\n");
    let (ended, told) = conversed(alloc, &[2, 1], &["a", "b"], &[], 3)?;
    assert_eq!(rt; ended, Err(ConversationRefused::Write));
    assert_eq!(rt; told.as_str(), "say 2, 2\na");
    Ok(())
}
