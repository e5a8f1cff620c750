// A walker over the lent bytes of an event file: it stands at a place, and gives one event after another.
ghost use Rattle.std.specs.Prelude.{◌≡◌};
ghost use Rattle.events.specs.Events.{bytes_left, Steps};

use crate::decoder::{Event, event_at};

#[derive(Clone, Copy)]
pub struct Walker<'a> {
    pub events: &'a [u8],
    pub at: usize,
}

impl<'a> Walker<'a> {
    // A walker at a place, which may be past the end.
    pub fn new(events: &'a [u8], at: usize) -> Walker<'a>
        ensures { (result.events ≡ events.entry) × (result.at ≡ at) }
    {
        Walker { events, at }
    }

    // The event at the walker's place, which the walker then passes; where there is none it stays.
    #[tactic(auto, using(crate::proofs::EventPlaces::left_first, crate::proofs::EventPlaces::ends_some))]
    pub fn step(&mut self) -> Option<Event>
        ensures { Steps self.old result self.new }
    {
        let event = event_at(self.events, self.at)?;
        self.at += event.size();
        Some(event)
    }
}

impl<'a> Iterator for Walker<'a> {
    type Item = Event;

    ghost next_gives = { Steps };

    ghost remaining = { bytes_left };

    #[tactic(auto, using(crate::proofs::EventPlaces::ends_some))]
    fn next(&mut self) -> Option<Event> {
        self.step()
    }
}
