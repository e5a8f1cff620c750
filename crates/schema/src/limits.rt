// Document 01's limits of a schema: question 10's part about it.
ghost use Rattle.std.specs.Prelude.{◌≡◌, ◌↔◌, ℕ, ◌+◌, ◌^◌, ◌≤◌, ◌<◌, T, All, get_or};
ghost use Rattle.sdtd.specs.Limits.{most_types, most_states, most_steps};
ghost use Rattle.sdtd.specs.Schema.{StepWithin, WithinLimits};
ghost use Rattle.schema.specs.Value.{steps_of, meaning, SetsFit};
ghost use Rattle.schema.specs.Steps.{meant, left};
ghost use Rattle.schema.specs.Limits.{BlockFits, BlocksFit};

use crate::roots::roots_within;
use crate::span::Span;
use crate::state_set::StateSet;
use crate::steps::{Step, Steps};
use crate::value::{STATES, STEPS, Schema, TAGS, TYPES};

impl Step {
    // Are its states and its type below the counts?
    fn within(self, states: u8, types: u8) -> bool
        ensures { T result ↔ StepWithin states types (meant self) }
    {
        if states <= self.from {
            return false;
        }
        if types <= self.by.0 {
            return false;
        }
        self.to < states
    }
}

// Are the steps inside the state count and the number of types?
fn steps_within(mut steps: Steps<'_>, states: u8, types: u8) -> bool
    ensures { T result ↔ All (StepWithin states types) (left steps.entry) }
{
    steps.all(|step| step.within(states, types))
}

// Is the block of the type a inside the limits, its steps included?
fn block_within(schema: &Schema, a: usize, span: Span) -> bool
    requires { SetsFit schema.now × (a < most_types) }
    ensures { T result
        ↔ BlockFits (get_or schema.now.tag a 0) (get_or schema.now.states a 0) (get_or schema.now.accepting a 0)
        (steps_of schema.now.from schema.now.by schema.now.to span.start span.n) schema.now.tags schema.now.types }
{
    let states = schema.states[a];
    let accepting = StateSet(schema.accepting[a]);
    if schema.tags <= schema.tag[a] {
        return false;
    }
    if states == 0 {
        return false;
    }
    if STATES < states {
        return false;
    }
    if !accepting.below(states) {
        return false;
    }
    steps_within(schema.steps_in(span), states, schema.types)
}

// Are the blocks of the types inside the limits, and all their steps no more than the limit?
fn blocks_within(schema: &Schema) -> bool
    requires { SetsFit schema.now × (schema.now.types ≤ most_types) }
    ensures { T result
        ↔ BlocksFit schema.now.tag schema.now.states schema.now.accepting schema.now.steps
        (steps_of schema.now.from schema.now.by schema.now.to) schema.now.tags schema.now.types 0 0 schema.now.types }
{
    let mut start = 0;
    for a in 0..usize::from(schema.types) {
        let n = usize::from(schema.steps[a]);
        if STEPS - start < n {
            return false;
        }
        if !block_within(schema, a, Span { start, n }) {
            return false;
        }
        start += n;
    }
    true
}

// The sets of a table fit. (Elements behind a reference are not known to fit their type, those of a value are.)
fn sets_fit(sets: [u32; TYPES])
    ensures { (a : ℕ) → get_or sets a 0 < 2 ^ most_states }
{}

// Is the schema inside document 01's limits: its counts, and each tag, type and state in its used entries?
pub fn within(schema: &Schema) -> bool
    ensures limits { T result ↔ WithinLimits (meaning schema.now) }
    ensures sets { SetsFit schema.now }
{
    let accepting = schema.accepting;
    sets_fit(accepting);
    if schema.tags == 0 {
        return false;
    }
    if TAGS < schema.tags {
        return false;
    }
    if TYPES < usize::from(schema.types) {
        return false;
    }
    if !roots_within(schema) {
        return false;
    }
    blocks_within(schema)
}
