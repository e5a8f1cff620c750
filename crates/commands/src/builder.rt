// The schema that the commands state, command by command.
ghost use Rattle.std.specs.Prelude.{◌≡◌, false, ◌≤◌, min};
ghost use Rattle.std.specs.List.{fold};
ghost use Rattle.sdtd.specs.Limits.{most_types};
ghost use Rattle.sdtd.specs.Answer.{number_told};
ghost use Rattle.schema.specs.Steps.{left};
ghost use Rattle.commands.specs.Building.{nothing_built, last_type, found_in, step_given, root_among, given, seen_by, failed_by, type_added, step_added, built, named, unknown};

use crate::phase::Phase;
use crate::questions::Seen;
use command::Command;
use schema::{ROOTS, STEPS, Schema, StateSet, Step, Steps, TYPES, root_types};
use sdtd::{Refused, Tag, TypeNo};

// the most types and the most roots, as bytes; the most steps, as a type's count of them (a constant calls no `From`, so these are casts)
pub(crate) const TYPE_NUMBERS: u8 = TYPES as u8;

pub(crate) const MOST_ROOTS: u8 = ROOTS as u8;

const MOST_COUNT: u16 = STEPS as u16;

// The largest type number. Added modulo the number of types it takes one away.
const LAST_TYPE: u8 = TYPE_NUMBERS - 1;

// The schema so far, how far the file is read, and the number of steps. `places` holds for each type the place of the first STEP or 32 that
// names it, or the file's length; `bound` lies above each type that is named.
#[derive(Drop)]
pub(crate) struct Builder {
    pub schema: Schema,
    pub phase: Phase,
    pub steps: usize,
    pub places: [usize; TYPES],
    pub bound: usize,
}

impl Builder {
    // Before the first command of a file of this length.
    pub(crate) fn new(length: usize) -> Builder
        ensures { result ≡ nothing_built length }
    {
        Builder {
            schema: Schema::NONE,
            phase: Phase::BeforeTags,
            steps: 0,
            places: [length; TYPES],
            bound: 0,
        }
    }

    // The place of the block that the file is in.
    pub(crate) fn last_type(&self) -> usize
        ensures { result ≡ last_type self.now.schema.types }
    {
        usize::from((self.schema.types % TYPE_NUMBERS + LAST_TYPE) % TYPE_NUMBERS)
    }

    // Has the block that the file is in this step? Its steps are the last.
    fn has_step(&self, step: Step) -> bool
        ensures { result ≡ step_given self.now step.from step.by.0 step.to }
    {
        let n = usize::from(self.schema.steps[self.last_type()]);
        among(
            self.schema.steps_from(self.steps.saturating_sub(n), n),
            step,
        )
    }

    // Is the type one of the roots?
    #[tactic(auto, using(crate::proofs::RootTables::marked_given))]
    fn has_root(&self, a: TypeNo) -> bool
        ensures { result ≡ root_among self.now.schema.root self.now.schema.roots a.0 }
    {
        let marked = root_types(self.schema.root, self.schema.roots);
        let i = usize::from(a.0);
        i < TYPES && marked[i]
    }

    // Has the block that the file is in the command's STEP or NIL already, or the file the command's ROOT?
    fn has(&self, command: Command) -> bool
        ensures { result ≡ given self.now command }
    {
        match command {
            Command::Step(from, by, to) => self.has_step(Step { from, by, to }),
            Command::Root(a) => self.has_root(a),
            Command::Nil => self.schema.nillable[self.last_type()],
            _ => false,
        }
    }

    // What is seen of the file where the command is asked.
    fn seen(&self, command: Command) -> Seen
        ensures { result ≡ seen_by self.now command }
    {
        let last = self.last_type();
        let given = self.has(command);
        Seen {
            phase: self.phase,
            tags: self.schema.tags,
            types: self.schema.types,
            roots: self.schema.roots,
            steps: self.steps,
            states: self.schema.states[last],
            accepting: StateSet(self.schema.accepting[last]),
            given,
        }
    }

    // Questions 3 to 6 of the command, outside an expression.
    pub(crate) fn ask(&self, command: Command) -> Result<(), Refused>
        ensures { number_told result ≡ failed_by self.now command }
    {
        self.seen(command).ask(command)
    }

    // Adds the command, which passed its questions, and stands at this place.
    #[tactic(auto, unfolding(crate::specs::Building::built))]
    pub(crate) fn add(&mut self, command: Command, at: usize)
        ensures { self.new ≡ built self.old at command }
    {
        let last = self.last_type();
        match command {
            Command::Tags(count) => {
                self.schema.tags = count;
                self.phase = Phase::BeforeTypes;
            }
            Command::TypeBlock(tag, states) => self.add_type(tag, states),
            Command::Final(state) => {
                self.schema.accepting[last] = StateSet(self.schema.accepting[last]).with(state).0;
            }
            Command::Step(from, by, to) => {
                self.add_step(Step { from, by, to });
                self.name(by, at);
            }
            Command::Root(root) => {
                let next = self.schema.roots % MOST_ROOTS;
                self.schema.roots = next + 1;
                self.schema.root[usize::from(next)] = root.0;
                self.phase = Phase::AfterRoot;
            }
            Command::Nil => self.schema.nillable[last] = true,
            Command::Done => self.phase = Phase::AfterDone,
            Command::Expression(_) => {}
        }
    }

    // One type more, of this tag and state count.
    fn add_type(&mut self, tag: Tag, states: u8)
        ensures { self.new ≡ type_added self.old tag.0 states }
    {
        let next = self.schema.types % TYPE_NUMBERS;
        self.schema.types = next + 1;
        self.schema.tag[usize::from(next)] = tag.0;
        self.schema.states[usize::from(next)] = states;
        self.phase = Phase::of_block(states);
    }

    // One step more of the block that the file is in.
    fn add_step(&mut self, step: Step)
        ensures { self.new ≡ step_added self.old step.from step.by.0 step.to }
    {
        let last = self.last_type();
        let next = self.steps % STEPS;
        self.steps = next + 1;
        self.schema.steps[last] = self.schema.steps[last] % MOST_COUNT + 1;
        self.schema.from[next] = step.from;
        self.schema.by[next] = step.by.0;
        self.schema.to[next] = step.to;
    }

    // The type is named at this place.
    pub(crate) fn name(&mut self, a: TypeNo, at: usize)
        ensures { self.new ≡ named self.old a.0 at }
    {
        let named = usize::from(a.0 % TYPE_NUMBERS);
        let first = self.places[named];
        self.places[named] = first.min(at);
        self.bound = self.bound.max(named + 1);
    }

    // The first place at which a type that was not given is named, if there is one: `end` lies behind every place.
    pub(crate) fn unknown(&self, end: usize) -> Option<usize>
        requires { self.now.bound ≤ most_types }
        ensures { result ≡ unknown self.now end }
    {
        let types = usize::from(self.schema.types);
        if self.bound <= types {
            return None;
        }
        let first = least(&self.places[types..self.bound], end);
        (first < end).then_some(first)
    }
}

// The least of the places and the end.
fn least(places: &[usize], end: usize) -> usize
    ensures { result ≡ fold (λ first place. min first place) end places.now }
{
    places.iter().fold(end, |first, place| first.min(*place))
}

// Is the step among these? All parts of all of them are compared, with no branch: `==` branches, and a block of 1,024 steps takes five times as
// long to read with it.
fn among(steps: Steps<'_>, step: Step) -> bool
    ensures { result ≡ found_in step.from step.by.0 step.to false (left steps.entry) }
{
    let mut found = false;
    for other in steps {
        found |= (other.from == step.from) & ((other.by.0 == step.by.0) & (other.to == step.to));
    }
    found
}
