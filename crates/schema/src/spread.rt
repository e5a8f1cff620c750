// Sets of states that grow along steps: each type's settles over its own steps, round after round over the types.
ghost use Rattle.std.specs.Prelude.{◌≡◌, ◌↔◌, ◌<◌, T, fold, length};
ghost use Rattle.sdtd.specs.Limits.{most_types};
ghost use Rattle.schema.specs.Steps.{meant, left};
ghost use Rattle.schema.specs.Spread.{spread_step, settle_set, Settled};
ghost use Rattle.schema.specs.Going.{along, steps_by, tells_by, told_anew, round};

use crate::accepted::Accepted;
use crate::span::Span;
use crate::state_set::StateSet;
use crate::steps::{Step, Steps};
use crate::value::{Schema, TYPES};
use crate::ways::{bears_in, ways_of};

// Which way sets grow along steps: back from where the steps lead, as live states do, or forth from where they begin.
#[derive(Clone, Copy)]
pub(crate) enum Way {
    Back,
    Forth,
}

impl Step {
    // The step as it is taken on the way.
    fn along(self, way: Way) -> Step
        ensures { meant result ≡ along way (meant self) }
    {
        match way {
            Way::Back => self,
            Way::Forth => Step {
                from: self.to,
                by: self.by,
                to: self.from,
            },
        }
    }
}

// A step by a tree-bearing type with its state `to` in the set adds its state `from`.
#[tactic(auto, unfolding(crate::specs::Spread::spread_step, crate::specs::States::insert))]
fn spread_step(step: Step, ways: &[u8; TYPES], set: u32) -> u32
    ensures { result ≡ spread_step ways.now (meant step) set }
{
    if !bears_in(ways, step.by) {
        return set;
    }
    if !StateSet(set).has(step.to) {
        return set;
    }
    let grown = StateSet(set).with(step.from);
    grown.0
}

// The steps, one after another.
fn spread_set(steps: Steps<'_>, way: Way, ways: &[u8; TYPES], set: u32) -> u32
    ensures { result ≡ fold (λ x s. spread_step ways.now (along way s) x) set (left steps.entry) }
{
    steps.fold(set, |grown, step| {
        spread_step(step.along(way), ways, grown)
    })
}

// The steps of a type, over and over until they add nothing.
fn settle_set(schema: &Schema, span: Span, way: Way, ways: &[u8; TYPES], set: u32) -> u32
    ensures { result ≡ settle_set ways.now (steps_by way schema.now span.start span.n) set }
{
    let mut settled = set;
    // A loop until the steps add nothing has no range to go over.
    loop {
        let grown = spread_set(schema.steps_in(span), way, ways, settled);
        if grown == settled {
            return settled;
        }
        settled = grown;
    }
}

// On the way back the set of a type tells anew in which ways the type bears a tree; on the way forth the table stays.
fn tell_anew(schema: &Schema, way: Way, a: usize, set: u32, ways: &mut [u8; TYPES])
    requires { a < most_types }
    ensures { ways.new ≡ told_anew way schema.now a set ways.old }
{
    match way {
        Way::Back => ways[a] = ways_of(set, schema.nillable[a]),
        Way::Forth => {}
    }
}

// One round: the set of each type settles over the type's own steps.
fn spread_all(accepted: &Accepted<'_>, way: Way, ways: &mut [u8; TYPES], sets: &mut [u32; TYPES])
    requires { (ways.old ≡ tells_by way accepted.now.schema.now ways.old sets.old) × (length sets.old ≡ most_types) }
    ensures { (sets.new ≡ round way accepted.now.schema.now ways.old sets.old)
        × (ways.new ≡ tells_by way accepted.now.schema.now ways.old sets.new) }
{
    let schema = accepted.schema;
    let mut start = 0;
    for a in 0..usize::from(schema.types) {
        let n = usize::from(schema.steps[a]);
        let span = Span { start, n };
        let settled = settle_set(schema, span, way, ways, sets[a]);
        sets[a] = settled;
        tell_anew(schema, way, a, settled, ways);
        start += n;
    }
}

// Are the tables the same?
fn same_sets(x: &[u32; TYPES], y: &[u32; TYPES]) -> bool
    ensures { T result ↔ (x.now ≡ y.now) }
{
    x == y
}

// The sets, round after round until one changes nothing; `ways` tells in which ways types bear a tree, by the sets.
// Its two callers each lay it out for their own way.
#[inline(always)]
pub(crate) fn settle(
    accepted: &Accepted<'_>,
    way: Way,
    ways: &mut [u8; TYPES],
    first: [u32; TYPES],
) -> [u32; TYPES]
    requires { ways.old ≡ tells_by way accepted.now.schema.now ways.old first }
    ensures { Settled (round way accepted.now.schema.now ways.old) first result
        × (ways.new ≡ tells_by way accepted.now.schema.now ways.old result) }
{
    let mut sets = first;
    // A loop until a round changes nothing has no range to go over.
    loop {
        let before = sets;
        spread_all(accepted, way, ways, &mut sets);
        if same_sets(&sets, &before) {
            return sets;
        }
    }
}
