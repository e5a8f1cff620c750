// Opening, closing and finish: each takes a reading and hands back the one that follows, with the answer.
ghost use Rattle.std.specs.Prelude.{◌≡◌, ◌↔◌, ◌≤◌, ◌<◌, T};
ghost use Rattle.sdtd.specs.Limits.{most_tags};
ghost use Rattle.sdtd.specs.Tree.{plain, nil};
ghost use Rattle.sdtd.specs.Document.{opening, closing, finish};
ghost use Rattle.events.specs.Events.{kind_of};
ghost use Rattle.schema.specs.Value.{meaning, SetsFit};
ghost use Rattle.reading.specs.Levels.{Within, fresh};
ghost use Rattle.reading.specs.Questions.{CallMeans, gives};
ghost use Rattle.reading.specs.Calls.{typed_of, taken_of};
ghost use Rattle.reading.specs.Steps.{coming_at, inner_by_steps, open_by_steps, inner_of, Steady, OwnFits};

use crate::coming::Coming;
use crate::heads::{HEADS, heads};
use crate::own_steps::coming_steps;
use crate::sought::{Opening, sought_of};
use crate::steps::{Inner, NONE_OPEN, coming_first};
use crate::value::{LEVELS, Reading};
use events::Kind;
use schema::{LiveStates, Schema, StateSet, live, within};
use sdtd::{Refused, Tag, TypeNo};

// The answer, and the reading that follows; beside a refusal, the reading handed in.
#[derive(Clone, Copy)]
pub struct Next<A> {
    pub answer: Result<A, Refused>,
    pub reading: Reading,
}

impl Reading {
    // A reading that has taken no event.
    pub fn fresh() -> Reading
        ensures { result ≡ fresh }
    {
        Reading {
            depth: 0,
            rooted: false,
            finished: false,
            types: [0; LEVELS],
            sets: [StateSet::NONE.0; LEVELS],
        }
    }

    // The tag and the accepting states of the innermost type, and whether it is nillable; where none is open, any will do.
    #[tactic(auto, unfolding(crate::specs::Steps::inner_of))]
    pub(crate) fn inner_of(&self, schema: &Schema) -> Inner
        requires { Steady self.now }
        ensures { result ≡ inner_of schema.now.tag schema.now.nillable schema.now.accepting self.now }
    {
        if self.depth == 0 {
            return NONE_OPEN;
        }
        let a = usize::from(self.types[usize::from(self.depth) - 1]);
        Inner {
            tag: Tag(schema.tag[a]),
            nillable: schema.nillable[a],
            accepting: schema.accepting[a],
        }
    }

    // What comes next, by the steps of the innermost type.
    #[tactic(auto, unfolding(crate::specs::Steps::coming_at, crate::specs::Coming::coming_of))]
    fn coming_own<'a>(
        &self,
        schema: &'a Schema,
        found: &'a LiveStates,
        heads: &'a [u32; HEADS],
        o: Opening,
    ) -> Coming
        requires { (o.tag.0 < most_tags) × OwnFits schema.now self.now }
        ensures { result ≡ coming_at heads.now (inner_by_steps schema.now found.now.live found.now.ways self.now
            (kind_of o.kind) o.tag.0) self.now (kind_of o.kind) o.tag.0 }
    {
        let depth = usize::from(self.depth);
        if depth == 0 {
            return coming_first(heads, self.rooted, sought_of(o));
        }
        let inner = TypeNo(self.types[depth - 1]);
        coming_steps(schema, found, inner, self.sets[depth - 1], o)
    }

    // An opening, by the steps of the innermost type. Apart from `step_open`, which has a walk's rows: both end in `open_by`.
    #[tactic(auto, unfolding(crate::specs::Steps::coming_at, crate::specs::Steps::open_step, crate::specs::Coming::coming_of))]
    fn step_open_own<'a>(
        &mut self,
        schema: &'a Schema,
        found: &'a LiveStates,
        heads: &'a [u32; HEADS],
        o: Opening,
    ) -> Result<TypeNo, Refused>
        requires { (schema.now.tags ≤ most_tags) × OwnFits schema.now self.old }
        ensures { gives (typed_of result) self.new
            ≡ open_by_steps schema.now found.now.live found.now.ways heads.now self.old (kind_of o.kind) o.tag.0 }
    {
        if self.finished {
            return Err(Refused::Finished);
        }
        if schema.tags <= o.tag.0 {
            return Err(Refused::UnknownTag);
        }
        let next = self.coming_own(schema, found, heads, o);
        self.open_by(sought_of(o), next)
    }

    // Question 10.
    fn both_within(&self, schema: &Schema) -> bool
        ensures ten { T result ↔ Within (meaning schema.now) self.now }
        ensures sets { SetsFit schema.now }
    {
        if !within(schema) {
            return false;
        }
        self.levels_within(schema.types, &schema.states)
    }

    // An opening of a tag, plainly or as nil.
    fn open_as(mut self, schema: &Schema, o: Opening) -> Next<TypeNo>
        ensures { CallMeans (meaning schema.now) self (opening (kind_of o.kind) o.tag.0) (gives (typed_of result.answer) result.reading) }
    {
        let Some(found) = live(schema) else {
            return self.refused();
        };
        if !self.levels_within(schema.types, &schema.states) {
            return self.refused();
        }
        let heads = heads(schema, &found.ways);
        let answer = self.step_open_own(schema, &found, &heads, o);
        Next {
            answer,
            reading: self,
        }
    }

    // An opening of the tag, plainly.
    pub fn open(self, schema: &Schema, tag: Tag) -> Next<TypeNo>
        ensures { CallMeans (meaning schema.now) self (opening plain tag.0) (gives (typed_of result.answer) result.reading) }
    {
        let kind = Kind::Plain;
        self.open_as(schema, Opening { kind, tag })
    }

    // An opening of the tag as nil.
    pub fn open_nil(self, schema: &Schema, tag: Tag) -> Next<TypeNo>
        ensures { CallMeans (meaning schema.now) self (opening nil tag.0) (gives (typed_of result.answer) result.reading) }
    {
        let kind = Kind::Nil;
        self.open_as(schema, Opening { kind, tag })
    }

    // A closing of the tag.
    pub fn close(mut self, schema: &Schema, tag: Tag) -> Next<()>
        ensures { CallMeans (meaning schema.now) self (closing tag.0) (gives (taken_of result.answer) result.reading) }
    {
        if !self.both_within(schema) {
            return self.refused();
        }
        let own = self.inner_of(schema);
        let answer = self.step_close(own, schema.tags, tag);
        Next {
            answer,
            reading: self,
        }
    }

    // The finish.
    pub fn finish(mut self, schema: &Schema) -> Next<()>
        ensures { CallMeans (meaning schema.now) self finish (gives (taken_of result.answer) result.reading) }
    {
        if !self.both_within(schema) {
            return self.refused();
        }
        let answer = self.step_finish();
        Next {
            answer,
            reading: self,
        }
    }

    // A question 10 answered no.
    fn refused<A>(self) -> Next<A>
        ensures { (result.answer ≡ Err Refused.OutsideLimits) × (result.reading ≡ self) }
    {
        Next {
            answer: Err(Refused::OutsideLimits),
            reading: self,
        }
    }
}
