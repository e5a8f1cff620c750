// An expression's automaton, laid into what is built.
ghost use Rattle.std.specs.Prelude.{◌≡◌, [], ◌∷◌, ℕ, ◌+◌, ◌≤◌, ◌<◌, length, get_or};
ghost use Rattle.sdtd.specs.Limits.{most_types, most_states, most_steps};
ghost use Rattle.sdtd.specs.Schema.{step};
ghost use Rattle.commands.specs.Building.{all_named, Added};
ghost use Rattle.commands.specs.Laying.{Grouped, laid_by, laid_from, laid_steps, LaidAs, names_from};

use crate::builder::{Builder, TYPE_NUMBERS};
use crate::phase::Phase;
use expression::Automaton;
use schema::{STATES, STEPS, StateSet, TYPES};
use sdtd::{Refusal, Refused, TypeNo};

// the states that an automaton can have (a constant calls no `From`)
const ROOM: usize = STATES as usize;

// Puts the uses in the set into the sets of their types, which are empty before; gives the set of these types.
fn group(set: u32, types: &[u8; ROOM], sets: &mut [u32; TYPES]) -> u64
    requires { (length sets.old ≡ most_types) × ((k : ℕ) → get_or sets.old k 0 ≡ 0) }
    ensures { Grouped set types.now sets.new result }
{
    let mut named = 0u64;
    for q in StateSet(set).states() {
        let j = usize::from(types[usize::from(q)] % TYPE_NUMBERS);
        let grown = StateSet(sets[j]).with(q);
        sets[j] = grown.0;
        // j is below 64, and a shift takes a u32
        named |= 1u64 << (j as u32);
    }
    named
}

impl Builder {
    // Adds the automaton of an expression, if its steps fit.
    pub(crate) fn add_expression(&mut self, read: &Automaton) -> Result<(), Refusal>
        requires { (read.now.uses < most_states) × (self.old.steps ≤ most_steps) × (self.old.bound ≤ most_types) }
        ensures { Added self.old self.new read.now result }
    {
        let before = self.steps;
        self.lay_steps(read);
        if STEPS < self.steps {
            return Err(Refused::TooMany.at(read.end));
        }
        let last = self.last_type();
        self.schema.states[last] = read.uses + 1;
        self.schema.accepting[last] = read.accepting.0;
        // There are at most STEPS, so the cast cuts nothing.
        self.schema.steps[last] = (self.steps - before) as u16;
        self.phase = Phase::AfterExpression;
        self.add_names(read);
        Ok(())
    }

    // One step more; behind the last place none, and the number of steps is one past it.
    #[tactic(auto, unfolding(sdtd::specs::Lists::of_each, schema::specs::Putting::put_all))]
    fn put_step(&mut self, p: u8, j: u8, q: u8)
        requires { self.old.steps ≤ most_steps + 1 }
        ensures { LaidAs (step p j q ∷ []) self.old self.new }
    {
        let n = self.steps;
        if STEPS <= n {
            self.steps = STEPS + 1;
            return;
        }
        self.schema.from[n] = p;
        self.schema.by[n] = j;
        self.schema.to[n] = q;
        self.steps = n + 1;
    }

    // The steps from the state p by the type j, to the uses in the set.
    fn lay_by(&mut self, set: u32, p: u8, j: u8)
        requires { self.old.steps ≤ most_steps + 1 }
        ensures { LaidAs (laid_by p j set) self.old self.new }
    {
        for q in StateSet(set).states() {
            self.put_step(p, j, q);
        }
    }

    // The steps from the state p, to the uses in the set, type by type; `sets` are empty before and after.
    fn lay_from(&mut self, set: u32, p: u8, types: &[u8; ROOM], sets: &mut [u32; TYPES])
        requires { (self.old.steps ≤ most_steps + 1) × (length sets.old ≡ most_types) × ((k : ℕ) → get_or sets.old k 0 ≡ 0) }
        ensures { LaidAs (laid_from types.now p set) self.old self.new
            × (length sets.new ≡ most_types) × ((k : ℕ) → get_or sets.new k 0 ≡ 0) }
    {
        // A set of types has no iterator: one for this loop alone would be no shorter. At each turn `rest` loses its smallest type, which is below 64:
        // a cast of it cuts nothing.
        let mut rest = group(set, types, sets);
        while rest != 0 {
            let j = u64::trailing_zeros(rest) as u8;
            let own = sets[j as usize];
            self.lay_by(own, p, j);
            sets[j as usize] = StateSet::NONE.0;
            rest = rest & (rest - 1);
        }
    }

    // The automaton's steps by from, type, to.
    fn lay_steps(&mut self, read: &Automaton)
        requires { (read.now.uses < most_states) × (self.old.steps ≤ most_steps) }
        ensures { LaidAs (laid_steps read.now.next read.now.types read.now.uses) self.old self.new }
    {
        let mut sets = [StateSet::NONE.0; TYPES];
        let states = read.uses + 1;
        for p in 0..states {
            self.lay_from(read.next[usize::from(p)], p, &read.types, &mut sets);
        }
    }

    // The automaton's uses name their types.
    fn add_names(&mut self, read: &Automaton)
        requires { (read.now.uses < most_states) × (self.old.bound ≤ most_types) }
        ensures { self.new ≡ all_named self.old (names_from read.now.types read.now.places 1 read.now.uses) }
    {
        let states = usize::from(read.uses) + 1;
        for q in 1..states {
            self.name(TypeNo(read.types[q]), read.places[q]);
        }
    }
}
