// What comes next inside an element by its type's own steps, where a schema is asked for one opening only.
ghost use Rattle.std.specs.Prelude.{◌≡◌, ◌+◌, ◌≤◌, ◌<◌, T, get_or};
ghost use Rattle.std.specs.List.{flat_map};
ghost use Rattle.sdtd.specs.Limits.{most_types, most_states, most_steps};
ghost use Rattle.events.specs.Events.{kind_of};
ghost use Rattle.schema.specs.States.{member};
ghost use Rattle.schema.specs.Steps.{meant};
ghost use Rattle.schema.specs.Value.{offset, steps_of};
ghost use Rattle.reading.specs.Coming.{joins, step_taken, step_moves, moves_by_steps, coming_by};

use crate::coming::{Coming, Least, NONE_YET};
use crate::heads::opens_in;
use crate::sought::Opening;
use schema::{LiveStates, Schema, Span, StateSet, Step, TYPES};
use sdtd::{Tag, TypeNo};

// For which opening a step is asked, from which states, and into which live states of its type.
#[derive(Clone, Copy)]
struct Asked {
    pub opening: Opening,
    pub states: StateSet,
    pub own: StateSet,
}

// Is q in the set? Then it is a state.
fn in_set(set: u32, q: u8) -> bool
    ensures { (result ≡ member q set) × (T result → q < most_states) }
{
    StateSet(set).has(q)
}

// Is the step taken? Then it leads to a state.
fn step_taken<'a>(tag: &'a [u8; TYPES], ways: &'a [u8; TYPES], asked: Asked, step: Step) -> bool
    ensures { (result ≡ step_taken tag.now ways.now asked.own.0 asked.states.0 (kind_of asked.opening.kind)
        asked.opening.tag.0 (meant step))
        × (T result → step.to < most_states) }
{
    let a = usize::from(step.by.0) % TYPES;
    let opening = asked.opening;
    if Tag(tag[a]) != opening.tag {
        return false;
    }
    if !asked.states.has(step.from) {
        return false;
    }
    if !opens_in(ways, a, opening.kind) {
        return false;
    }
    in_set(asked.own.0, step.to)
}

// That step, if it is taken, after what came so far.
#[tactic(auto, unfolding(crate::specs::Coming::joins, crate::specs::Coming::join, schema::specs::States::insert))]
fn join_step<'a>(
    tag: &'a [u8; TYPES],
    ways: &'a [u8; TYPES],
    asked: Asked,
    step: Step,
    least: &'a mut Least,
)
    ensures { least.new
        ≡ joins (step_moves tag.now ways.now asked.own.0 asked.states.0 (kind_of asked.opening.kind) asked.opening.tag.0
        (meant step))
        least.old }
{
    if !step_taken(tag, ways, asked, step) {
        return;
    }
    least.join(u32::from(step.by.0), step.to);
}

// What comes next by the steps of the span.
fn coming_span(schema: &Schema, ways: &[u8; TYPES], asked: Asked, span: Span) -> Coming
    ensures { result ≡ coming_by (flat_map (step_moves schema.now.tag ways.now asked.own.0 asked.states.0 (kind_of asked.opening.kind) asked.opening.tag.0)
        (steps_of schema.now.from schema.now.by schema.now.to span.start span.n)) }
{
    let mut least = NONE_YET;
    for step in schema.steps_in(span) {
        join_step(&schema.tag, ways, asked, step, &mut least);
    }
    least.coming()
}

// What comes next from the states of the set, by the steps of the type a; `found` has the live states of each type, and in which ways it bears a
// tree.
pub(crate) fn coming_steps(
    schema: &Schema,
    found: &LiveStates,
    a: TypeNo,
    states: u32,
    opening: Opening,
) -> Coming
    requires { (a.0 < most_types) × (offset schema.now.steps a.0 + get_or schema.now.steps a.0 0 ≤ most_steps) }
    ensures { result ≡ coming_by (moves_by_steps schema.now found.now.live found.now.ways a.0 states (kind_of opening.kind) opening.tag.0) }
{
    let asked = Asked {
        opening,
        states: StateSet(states),
        own: StateSet(found.live[usize::from(a.0)]),
    };
    coming_span(schema, &found.ways, asked, schema.span(a))
}
