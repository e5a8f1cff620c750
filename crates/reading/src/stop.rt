// Where a walk over an event file stops, and what would have been taken there.
ghost use Rattle.std.specs.Prelude.{◌≡◌, ◌&&◌, ◌↔◌, ℕ, ◌+◌, ◌≤◌, ◌<◌, T, eqb};
ghost use Rattle.sdtd.specs.Limits.{most_tags};
ghost use Rattle.sdtd.specs.Tree.{plain, nil};
ghost use Rattle.sdtd.specs.Document.{opening, closing, finish};
ghost use Rattle.schema.specs.Value.{meaning, steps_of, SetsFit};
ghost use Rattle.events.specs.Events.{kind_of};
ghost use Rattle.schema.specs.Steps.{meant};
ghost use Rattle.reading.specs.Coming.{step_taken};
ghost use Rattle.reading.specs.Steps.{coming_first};
ghost use Rattle.reading.specs.Levels.{Within};
ghost use Rattle.reading.specs.Asking.{comes, Marks, MarksSteps, taken_by};
ghost use Rattle.reading.specs.Turns.{EndTables};
ghost use Rattle.reading.specs.Stop.{WouldTake, TellsTags, StopMeans};

use crate::event_file::{Trimmed, walk_file};
use crate::heads::{HEADS, opens_in};
use crate::sought::{Opening, sought_of};
use crate::steps::coming_first;
use crate::value::{LEVELS, Reading};
use events::Kind;
use schema::{Schema, Span, StateSet, Step, TAGS, TYPES};
use sdtd::{Tag, TypeNo};

// the entries of a table by tags
pub const TAG_NUMBERS: usize = TAGS as usize;

// The number and place of the refusal, 0 and the file's length where it is taken whole; the reading there; and what would have been taken: an
// opening of each tag, plainly and as nil, a closing, a finish.
#[derive(Clone, Copy)]
pub struct Stop {
    // a number, as in EventFile
    pub number: u8,
    pub place: usize,
    pub reading: Reading,
    pub opens: [bool; TAG_NUMBERS],
    pub opens_nil: [bool; TAG_NUMBERS],
    pub closes: bool,
    pub finishes: bool,
}

// The tags of which an opening would be taken, plainly and as nil: a table for each kind, as in `Stop`, so what fills them names each kind.
#[derive(Clone, Copy)]
struct Openings {
    pub opens: [bool; TAG_NUMBERS],
    pub opens_nil: [bool; TAG_NUMBERS],
}

const NO_OPENINGS: Openings = Openings {
    opens: [false; TAG_NUMBERS],
    opens_nil: [false; TAG_NUMBERS],
};

// From which states a step is taken, and into which live states.
#[derive(Clone, Copy)]
struct Between {
    pub states: StateSet,
    pub own: StateSet,
}

// Marks the tag g, if it is to be marked and has an entry.
fn mark_tag(flags: &mut [bool; TAG_NUMBERS], g: Tag, marked: bool)
    ensures { Marks (λ k. eqb g.0 k && marked) flags.old flags.new }
{
    let i = usize::from(g.0);
    if !marked {
        return;
    }
    if TAG_NUMBERS <= i {
        return;
    }
    flags[i] = true;
}

// If the step is between those states, the tag of its type is marked for each kind by which that bears a tree.
fn mark_step<'a>(
    tag: &'a [u8; TYPES],
    ways: &'a [u8; TYPES],
    among: Between,
    step: Step,
    found: &'a mut Openings,
)
    ensures { Marks (λ k. step_taken tag.now ways.now among.own.0 among.states.0 plain k (meant step))
        found.old.opens found.new.opens
        × Marks (λ k. step_taken tag.now ways.now among.own.0 among.states.0 nil k (meant step))
        found.old.opens_nil found.new.opens_nil }
{
    if !among.states.has(step.from) {
        return;
    }
    if !among.own.has(step.to) {
        return;
    }
    let a = usize::from(step.by.0) % TYPES;
    let g = Tag(tag[a]);
    mark_tag(&mut found.opens, g, opens_in(ways, a, Kind::Plain));
    mark_tag(&mut found.opens_nil, g, opens_in(ways, a, Kind::Nil));
}

// The openings by the steps of the span.
fn openings_span(schema: &Schema, ways: &[u8; TYPES], among: Between, span: Span) -> Openings
    ensures { MarksSteps (taken_by schema.now ways.now among plain)
        (steps_of schema.now.from schema.now.by schema.now.to span.start span.n) result.opens
        × MarksSteps (taken_by schema.now ways.now among nil)
        (steps_of schema.now.from schema.now.by schema.now.to span.start span.n) result.opens_nil }
{
    let mut found = NO_OPENINGS;
    for step in schema.steps_in(span) {
        mark_step(&schema.tag, ways, among, step, &mut found);
    }
    found
}

// Does a root come next for the opening, where no element is open?
fn opens_first(heads: &[u32; HEADS], rooted: bool, o: Opening) -> bool
    requires { o.tag.0 < most_tags }
    ensures { result ≡ comes (coming_first heads.now rooted (kind_of o.kind) o.tag.0) }
{
    coming_first(heads, rooted, sought_of(o)).is_some()
}

// Of which tags does one?
fn tags_first(heads: &[u32; HEADS], tags: u8, rooted: bool, kind: Kind) -> [bool; TAG_NUMBERS]
    requires { tags ≤ most_tags }
    ensures { TellsTags (λ g. (g < tags) × T (comes (coming_first heads.now rooted (kind_of kind) g))) result }
{
    let mut flags = [false; TAG_NUMBERS];
    for g in 0..tags {
        let tag = Tag(g);
        flags[usize::from(g)] = opens_first(heads, rooted, Opening { kind, tag });
    }
    flags
}

// Of which tags would an opening be taken where the walk has ended? The steps of the innermost type are passed once.
fn would_open(schema: &Schema, trimmed: &Trimmed, at: &Reading) -> Openings
    requires { EndTables schema.now at.now trimmed.now }
    ensures { TellsTags (λ g. WouldTake (meaning schema.now) at.now (opening plain g)) result.opens
        × TellsTags (λ g. WouldTake (meaning schema.now) at.now (opening nil g)) result.opens_nil }
{
    if at.finished {
        return NO_OPENINGS;
    }
    if LEVELS <= at.depth as usize {
        return NO_OPENINGS;
    }
    if at.depth == 0 {
        let opens = tags_first(&trimmed.heads, schema.tags, at.rooted, Kind::Plain);
        let opens_nil = tags_first(&trimmed.heads, schema.tags, at.rooted, Kind::Nil);
        return Openings { opens, opens_nil };
    }
    let level = at.depth as usize - 1;
    let a = TypeNo(at.types[level]);
    let among = Between {
        states: StateSet(at.sets[level]),
        own: StateSet(trimmed.found.live[usize::from(a.0)]),
    };
    openings_span(schema, &trimmed.found.ways, among, schema.span(a))
}

// Would a closing be taken there? If one is, it is of the innermost element's tag.
fn would_close(schema: &Schema, mut reading: Reading) -> bool
    requires { SetsFit schema.now × Within (meaning schema.now) reading }
    ensures { T result ↔ ((g : ℕ) × WouldTake (meaning schema.now) reading (closing g)) }
{
    let own = reading.inner_of(schema);
    reading.step_close(own, schema.tags, own.tag).is_ok()
}

// Would the finish?
fn would_finish(schema: &Schema, mut reading: Reading) -> bool
    requires { Within (meaning schema.now) reading }
    ensures { T result ↔ WouldTake (meaning schema.now) reading finish }
{
    reading.step_finish().is_ok()
}

// Walks the event file with no types' buffer, and asks where it stops.
pub fn pass_events(schema: &Schema, events: &[u8]) -> Stop
    ensures { StopMeans (meaning schema.now) events.now result }
{
    let mut unread = [0u8; 1];
    let end = walk_file(schema, false, events, &mut unread);
    let mut stop = Stop {
        number: end.told.number,
        place: end.told.place,
        reading: end.reading,
        opens: [false; TAG_NUMBERS],
        opens_nil: [false; TAG_NUMBERS],
        closes: false,
        finishes: false,
    };
    if let Some(trimmed) = end.trimmed {
        let Openings { opens, opens_nil } = would_open(schema, &trimmed, &end.reading);
        stop.opens = opens;
        stop.opens_nil = opens_nil;
        stop.closes = would_close(schema, end.reading);
        stop.finishes = would_finish(schema, end.reading);
    }
    stop
}
