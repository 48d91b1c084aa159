use super::{lines_of, spelled};
use pad_edge::Wire;
use serve_loop::{Event, Outs};
use std::alloc::Global;
use std::test::Fail;

/// What happens in a day, the moment of each event being its place from 1, and the texts that go out then.
#[derive(Drop)]
pub struct Day {
    alloc: Global,
    moment: u64,
    events: Vec<(u64, Event)>,
    wanted: Vec<String>,
}

impl Day {
    /// Nothing happens.
    pub fn new(alloc: Global) -> Day {
        Day {
            alloc,
            moment: 0,
            events: Vec::new(alloc),
            wanted: Vec::new(alloc),
        }
    }

    /// A connection opens at `+`, closes at `-`, and else says this. The texts that go out then are these, a line each; behind the part
    /// before a `*` they are not looked at.
    pub fn then(&mut self, number: u64, said: &str, lines: &str) -> Result<(), Fail> {
        let event = match said {
            "+" => Event::Opened(number),
            "-" => Event::Closed(number),
            said => Event::Text(number, Wire::new(spelled(self.alloc, said)?)),
        };
        self.add(event, lines)
    }

    /// The same of a text that stands as it is.
    pub fn says(&mut self, number: u64, text: String, lines: &str) -> Result<(), Fail> {
        self.add(Event::Text(number, Wire::new(text)), lines)
    }

    /// What happened, and the texts of each event.
    pub fn told(self) -> (Vec<(u64, Event)>, Vec<String>) {
        let Day { events, wanted, .. } = self;
        (events, wanted)
    }

    fn add(&mut self, event: Event, lines: &str) -> Result<(), Fail> {
        self.moment = self.moment.saturating_add(1);
        self.events.push((self.moment, event))?;
        self.wanted.push(spelled(self.alloc, lines)?)?;
        Ok(())
    }
}

/// The first event at which other texts went out, with these texts.
pub fn first_other(
    alloc: Global,
    outputs: &[Outs],
    wanted: &[String],
) -> Result<Option<(usize, String)>, Fail> {
    for (place, (outs, want)) in outputs.iter().zip(wanted).enumerate() {
        let lines = lines_of(alloc, outs)?;
        let is_wanted = match want.as_str().strip_suffix('*') {
            Some(begin) => lines.as_str().starts_with(begin),
            None => lines.as_str() == want.as_str(),
        };
        if !is_wanted {
            return Ok(Some((place, lines)));
        }
    }
    Ok(None)
}
