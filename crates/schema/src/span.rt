// Where a type's steps stand in the tables of steps.
ghost use Rattle.std.specs.Prelude.{◌+◌, ◌≤◌};
ghost use Rattle.sdtd.specs.Limits.{most_steps};

// n steps from the place `start` on, all inside the tables
#[derive(Clone, Copy)]
pub struct Span {
    pub start: usize,
    pub n: usize,
    pub ghost inside: { start + n ≤ most_steps },
}
