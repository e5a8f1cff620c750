// The event file's answer: one event after another, from a fresh reading, until the first refusal.
ghost use Rattle.std.specs.Prelude.{◌≡◌};
ghost use Rattle.schema.specs.Value.{meaning};
ghost use Rattle.reading.specs.Questions.{gives};
ghost use Rattle.reading.specs.Steps.{Steady};
ghost use Rattle.events.specs.Events.{event_at};
ghost use Rattle.reading.specs.Turns.{answer_of, answer_by, end_number, outside_number, Walks};
ghost use Rattle.reading.specs.EventFile.{EventsMean};

use crate::heads::{HEADS, heads};
use crate::sought::Opening;
use crate::tables::Tables;
use crate::value::Reading;
use events::{Event, Walker};
use schema::{BEGINS, LiveStates, Rows, STEPS, Schema, live_rows};
use sdtd::{Refused, TypeNo};

// The number of the first question answered no, 0 where the file is taken whole; the place of that event, or the file's length; how many
// openings were taken.
#[repr(C)]
#[derive(Clone, Copy)]
pub struct EventFile {
    // a number, not a `Result`: C reads this layout
    pub number: u8,
    pub place: usize,
    pub count: usize,
}

// Of a schema inside the limits: its live states, in which ways its types bear a tree, and its heads.
#[derive(Clone, Copy)]
pub(crate) struct Trimmed {
    pub found: LiveStates,
    pub heads: [u32; HEADS],
}

// Where a walk over an event file has ended: what is told of it, the reading there, and what the schema comes to if it is inside the limits.
#[derive(Clone, Copy)]
pub(crate) struct WalkEnd {
    pub told: EventFile,
    pub reading: Reading,
    pub trimmed: Option<Trimmed>,
}

// One event of the file: an opening gives a type.
#[tactic(auto, unfolding(crate::specs::Turns::answer_by))]
fn turn(tables: &Tables<'_>, reading: &mut Reading, event: Event) -> Result<Option<TypeNo>, Refused>
    requires { Steady reading.old }
    ensures { gives (answer_of result) reading.new ≡ answer_by tables.now reading.old event }
{
    match event {
        Event::Open(kind, tag) => {
            let a = reading.step_open(tables, Opening { kind, tag })?;
            Ok(Some(a))
        }
        Event::Close(tag) => {
            reading.step_close_in(tables, tag)?;
            Ok(None)
        }
        Event::Finish => {
            reading.step_finish()?;
            Ok(None)
        }
    }
}

// The number at the place where no event stands: the file is taken whole if it ends here and is finished. A number, here and below, as that is all
// that `EventFile` has room for.
fn end_number(finished: bool, end: usize, at: usize) -> u8
    ensures { result ≡ end_number finished end at }
{
    if finished && end <= at {
        0
    } else {
        Refused::NoEvent.number()
    }
}

// Under a schema outside the limits: 19 where the first bytes are no event, else 10.
fn outside_number(events: &[u8]) -> u8
    ensures { result ≡ outside_number (event_at events.now 0) }
{
    match Walker::new(events, 0).step() {
        None => Refused::NoEvent.number(),
        Some(_) => Refused::OutsideLimits.number(),
    }
}

fn ended(
    trimmed: Option<Trimmed>,
    reading: Reading,
    number: u8,
    place: usize,
    count: usize,
) -> WalkEnd
    ensures { result ≡ record { told = record { number = number; place = place; count = count }; reading = reading; trimmed = trimmed } }
{
    let told = EventFile {
        number,
        place,
        count,
    };
    WalkEnd {
        told,
        reading,
        trimmed,
    }
}

// Walks an event file; types go to the buffer. Where the buffer bounds the walk, it ends at an opening that has no byte there.
pub(crate) fn walk_file(schema: &Schema, bounded: bool, events: &[u8], out: &mut [u8]) -> WalkEnd
    ensures { Walks schema.now events.now out.old out.new bounded result }
{
    let mut entries = [0; STEPS];
    let mut begins = [0; BEGINS];
    let mut reading = Reading::fresh();
    let mut place = 0;
    let mut count = 0;
    let Some(found) = live_rows(schema, &mut entries, &mut begins) else {
        return ended(None, reading, outside_number(events), place, count);
    };
    let heads = heads(schema, &found.ways);
    let trimmed = Some(Trimmed { found, heads });
    let rows = Rows {
        entries: &entries,
        begins: &begins,
    };
    let tables = Tables {
        tags: schema.tags,
        rows,
        heads: &heads,
    };
    let mut walker = Walker::new(events, 0);
    while let Some(event) = walker.step() {
        match turn(&tables, &mut reading, event) {
            Err(why) => return ended(trimmed, reading, why.number(), place, count),
            Ok(Some(a)) => {
                if count < out.len() {
                    out[count] = a.0;
                    count += 1;
                } else if bounded {
                    return ended(trimmed, reading, Refused::NoRoom.number(), place, count);
                }
            }
            Ok(None) => {}
        }
        place = walker.at;
    }
    let number = end_number(reading.finished, events.len(), place);
    ended(trimmed, reading, number, place, count)
}

// The event file's answer.
pub fn read_events(schema: &Schema, events: &[u8], out: &mut [u8]) -> EventFile
    ensures { EventsMean (meaning schema.now) events.now out.old out.new result }
{
    walk_file(schema, true, events, out).told
}
