// Events of the event file.
ghost use Rattle.std.specs.Prelude.{◌≡◌};
ghost use Rattle.events.specs.Events.{operand, event_at, size};

use sdtd::Tag;

// How an element is opened: plainly, or as nil.
#[derive(Clone, Copy)]
pub enum Kind {
    Plain,
    Nil,
}

// An event with its tag; a finish has none.
#[derive(Clone, Copy)]
pub enum Event {
    Open(Kind, Tag),
    Close(Tag),
    Finish,
}

impl Event {
    // How many bytes it has.
    pub fn size(self) -> usize
        ensures { result ≡ size self }
    {
        match self {
            Event::Open(_, _) | Event::Close(_) => 2,
            Event::Finish => 1,
        }
    }
}

// The byte past a place of the file, as a tag; 0 where the file ends before it. An event with a tag has it there.
pub fn tag_at(events: &[u8], at: usize) -> Tag
    ensures { result ≡ operand events.now at }
{
    Tag(events.get(at.saturating_add(1)).copied().unwrap_or(0))
}

// The event at a place of the file, if there is one. A finish is told apart first, so that the match over the other codes has three.
pub(crate) fn event_at(events: &[u8], at: usize) -> Option<Event>
    ensures { result ≡ event_at events.now at }
{
    let (code, rest) = events.get(at..)?.split_first()?;
    if *code == 0x2f {
        return Some(Event::Finish);
    }
    let tag = Tag(*rest.first()?);
    match *code {
        0x21 => Some(Event::Open(Kind::Plain, tag)),
        0x22 => Some(Event::Close(tag)),
        0x23 => Some(Event::Open(Kind::Nil, tag)),
        _ => None,
    }
}
