// A schema's steps, one after another.
ghost use Rattle.std.specs.Prelude.{◌≡◌, ◌-◌, ◌^◌, ◌<◌, min, get_or};
ghost use Rattle.std.specs.Iterator.{YieldsFirstBy, item_count};
ghost use Rattle.sdtd.specs.Limits.{most_steps};
ghost use Rattle.schema.specs.Value.{offset, step_at, steps_of};
ghost use Rattle.schema.specs.Steps.{meant, left};

use crate::span::Span;
use crate::value::{STEPS, Schema};
use sdtd::TypeNo;

// A step of a content automaton.
#[derive(Clone, Copy, Debug, PartialEq, Eq)]
pub struct Step {
    pub from: u8,
    pub by: TypeNo,
    pub to: u8,
}

// The steps that are still to come.
#[derive(Clone, Copy)]
pub struct Steps<'a> {
    schema: &'a Schema,
    span: Span,
}

impl Schema {
    // The step at the place i.
    fn step(&self, i: usize) -> Step
        requires { i < most_steps }
        ensures { meant result ≡ step_at self.now.from self.now.by self.now.to i }
    {
        Step {
            from: self.from[i],
            by: TypeNo(self.by[i]),
            to: self.to[i],
        }
    }

    // How many steps the type a has; past the table's end none.
    fn count(&self, a: usize) -> usize
        ensures is { result ≡ get_or self.now.steps a 0 }
        ensures small { result < 2 ^ 16 }
    {
        self.steps.get(a).map_or(0, |n| usize::from(*n))
    }

    // Where the steps of a type stand, cut to the tables.
    pub fn span(&self, a: TypeNo) -> Span
        ensures start { result.start ≡ min (offset self.now.steps a.0) most_steps }
        ensures n { result.n ≡ min (get_or self.now.steps a.0 0) (most_steps - result.start) }
    {
        let a = usize::from(a.0);
        let mut before = 0;
        // A number that is no type may pass the table's end, so that its places are counted and not its entries.
        for b in 0..a {
            before += self.count(b);
        }
        let start = before.min(STEPS);
        let n = self.count(a).min(STEPS - start);
        Span { start, n }
    }

    // The n steps from the place `start` on, or as many of them as there are.
    pub fn steps_from(&self, start: usize, n: usize) -> Steps<'_>
        ensures { left result
            ≡ steps_of self.now.from self.now.by self.now.to start (min n (most_steps - start)) }
    {
        let start = start.min(STEPS);
        let n = n.min(STEPS - start);
        self.steps_in(Span { start, n })
    }

    // The steps of the span.
    pub fn steps_in(&self, span: Span) -> Steps<'_>
        ensures { left result ≡ steps_of self.now.from self.now.by self.now.to span.start span.n }
    {
        Steps { schema: self, span }
    }
}

impl<'a> Iterator for Steps<'a> {
    type Item = Step;

    ghost next_gives = { YieldsFirstBy meant left };

    ghost remaining = { item_count left };

    fn next(&mut self) -> Option<Step> {
        let Span { start, n, .. } = self.span;
        if n == 0 {
            return None;
        }
        self.span = Span {
            start: start + 1,
            n: n - 1,
        };
        Some(self.schema.step(start))
    }
}
