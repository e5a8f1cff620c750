// Types that the roots' words reach: a queue of them, each gone over once.
ghost use Rattle.std.specs.Prelude.{◌≡◌, ◌%◌};
ghost use Rattle.sdtd.specs.Limits.{most_types};
ghost use Rattle.schema.specs.Value.{steps_of};
ghost use Rattle.schema.specs.Steps.{meant, left};
ghost use Rattle.schema.specs.Spread.{steps_in, Starts, reaches, join_type, join_marked, reach_steps, ReachedFrom};

use crate::accepted::Accepted;
use crate::span::Span;
use crate::state_set::StateSet;
use crate::steps::{Step, Steps};
use crate::tables::LiveStates;
use crate::value::TYPES;
use crate::ways::bears_in;
use sdtd::TypeNo;

// The place of the first step of each of the types.
fn starts(accepted: &Accepted<'_>) -> [usize; TYPES]
    ensures { Starts accepted.now.schema.now.steps accepted.now.schema.now.types result }
{
    let schema = accepted.schema;
    let mut starts = [0; TYPES];
    let mut start = 0;
    for a in 0..usize::from(schema.types) {
        starts[a] = start;
        start += usize::from(schema.steps[a]);
    }
    starts
}

// Where the steps of a type stand; nothing for a number that is no type. `Schema::span` would count the steps before them anew.
fn span_of(accepted: &Accepted<'_>, starts: &[usize; TYPES], a: u8) -> Span
    requires { Starts accepted.now.schema.now.steps accepted.now.schema.now.types starts.now }
    ensures { steps_of accepted.now.schema.now.from accepted.now.schema.now.by accepted.now.schema.now.to result.start result.n
        ≡ steps_in accepted.now.schema.now.steps (steps_of accepted.now.schema.now.from accepted.now.schema.now.by accepted.now.schema.now.to) accepted.now.schema.now.types a }
{
    let schema = accepted.schema;
    if schema.types <= a {
        return Span { start: 0, n: 0 };
    }
    let i = usize::from(a);
    let start = starts[i];
    let n = usize::from(schema.steps[i]);
    Span { start, n }
}

// Does the step go from a state in `forward`, by a tree-bearing type, to a state in `live`?
fn reaches(step: Step, ways: &[u8; TYPES], forward: u32, live: u32) -> bool
    ensures { result ≡ reaches ways.now forward live (meant step) }
{
    if !StateSet(forward).has(step.from) {
        return false;
    }
    if !bears_in(ways, step.by) {
        return false;
    }
    StateSet(live).has(step.to)
}

// Which types are reached; the first `count` entries of the queue are they, as they joined. A type's number is below TYPES, so a cast to a byte
// loses nothing.
#[derive(Clone, Copy)]
struct Queued {
    reached: [bool; TYPES],
    queue: [u8; TYPES],
    count: usize,
}

impl Queued {
    // The type joins the queue, unless it is reached already. Inside the limits the remainder changes nothing.
    // The test for a full queue is there for the bound. It never holds: there are only so many types, and each joins once.
    #[tactic(auto, unfolding(crate::specs::Spread::join_type))]
    fn join(&mut self, by: TypeNo)
        ensures { self.new ≡ join_type (by.0 % most_types) self.old }
    {
        let b = usize::from(by.0) % TYPES;
        if self.reached[b] {
            return;
        }
        let last = self.count;
        if TYPES <= last {
            return;
        }
        self.reached[b] = true;
        self.queue[last] = b as u8;
        self.count = last + 1;
    }

    // The marked types join the queue.
    fn join_marked(&mut self, marked: &[bool; TYPES])
        ensures { self.new ≡ join_marked marked.now 0 most_types self.old }
    {
        for (a, is_marked) in marked.iter().enumerate() {
            if *is_marked {
                self.join(TypeNo(a as u8));
            }
        }
    }

    // The types join that the steps reach.
    fn join_reached(&mut self, steps: Steps<'_>, ways: &[u8; TYPES], forward: u32, live: u32)
        ensures { self.new ≡ reach_steps ways.now forward live (left steps.entry) self.old }
    {
        for step in steps {
            if reaches(step, ways, forward, live) {
                self.join(step.by);
            }
        }
    }
}

// The reached types: the marked ones, and those that the steps of each type of the queue reach, from the states that children reach.
pub(crate) fn reached_types(
    accepted: &Accepted<'_>,
    found: &LiveStates,
    forward: &[u32; TYPES],
    roots: &[bool; TYPES],
) -> [bool; TYPES]
    ensures { ReachedFrom
        (steps_in accepted.now.schema.now.steps (steps_of accepted.now.schema.now.from accepted.now.schema.now.by accepted.now.schema.now.to) accepted.now.schema.now.types)
        found.now.ways forward.now found.now.live roots.now result }
{
    let mut types = Queued {
        reached: [false; TYPES],
        queue: [0; TYPES],
        count: 0,
    };
    types.join_marked(roots);
    let starts = starts(accepted);
    let mut at = 0;
    // The queue grows while it is gone over, so that no range or slice of it can be fixed before.
    while at < types.count {
        let b = types.queue[at];
        let a = usize::from(b);
        let steps = accepted.schema.steps_in(span_of(accepted, &starts, b));
        types.join_reached(steps, &found.ways, forward[a], found.live[a]);
        at += 1;
    }
    types.reached
}
