// The openings of an event file in order, with their levels: a cursor goes on from each to the next, so that the file is passed over once.
ghost use Rattle.std.specs.Prelude.{◌≡◌};
ghost use Rattle.events.specs.Outline.{next_opening};

use crate::decoder::Event;
use crate::walker::Walker;
use sdtd::Tag;

// A place of the file, and how many elements are open there.
#[derive(Clone, Copy)]
pub struct Cursor {
    pub at: usize,
    pub level: usize,
}

// The first opening from the cursor on, past closings and finishes: its tag, and the cursor past it, which is at the opening's level.
pub fn next_opening(events: &[u8], from: Cursor) -> Option<(Tag, Cursor)>
    ensures { result ≡ next_opening events.now from }
{
    let mut walker = Walker::new(events, from.at);
    let mut level = from.level;
    while let Some(event) = walker.step() {
        match event {
            Event::Open(_, tag) => {
                let past = Cursor {
                    at: walker.at,
                    level: level.saturating_add(1),
                };
                return Some((tag, past));
            }
            Event::Close(_) => level = level.saturating_sub(1),
            Event::Finish => {}
        }
    }
    None
}
