// Sets of states.
ghost use Rattle.std.specs.Prelude.{◌≡◌, ◌↔◌, ℕ, ◌<◌, T};
ghost use Rattle.std.specs.Iterator.{YieldsFirst, item_count};
ghost use Rattle.schema.specs.States.{member, insert, meet, members};
ghost use Rattle.schema.specs.StatesLeft.{states_left};

use crate::value::STATES;

// A set of states below STATES, a bit each.
#[derive(Clone, Copy)]
pub struct StateSet(pub u32);

impl StateSet {
    // the set of no states
    pub const NONE: StateSet = StateSet(0);
    // the set of only state 0
    pub const START: StateSet = StateSet(1);

    // Is the state in the set? No state of STATES or more is.
    pub fn has(self, state: u8) -> bool
        ensures { result ≡ member state self.0 }
    {
        if STATES <= state {
            return false;
        }
        self.0 >> u32::from(state) & 1 == 1
    }

    // The set with the state; unchanged for a state of STATES or more.
    pub fn with(self, state: u8) -> StateSet
        ensures { result.0 ≡ insert state self.0 }
    {
        StateSet(self.0 | u32::from(state < STATES) << u32::from(state % STATES))
    }

    // Have the two sets a state in common?
    pub fn meets(self, other: StateSet) -> bool
        ensures { result ≡ meet self.0 other.0 }
    {
        self.0 & other.0 != StateSet::NONE.0
    }

    // Is every state of the set below the count?
    pub fn below(self, count: u8) -> bool
        ensures { T result ↔ ((q : ℕ) → T (member q self.0) → q < count) }
    {
        if STATES <= count {
            return true;
        }
        u64::from(self.0) < 1u64 << u32::from(count)
    }

    // The states of the set, rising.
    pub fn states(self) -> States
        ensures { states_left result ≡ members self.0 }
    {
        States { rest: self.0 }
    }
}

// The states of a set that are still to come.
#[derive(Clone, Copy)]
pub struct States {
    rest: u32,
}

impl Iterator for States {
    type Item = u8;

    ghost next_gives = { YieldsFirst states_left };

    ghost remaining = { item_count states_left };

    // the lowest of them; the cast loses nothing, since a place of a set's bit is below 32
    fn next(&mut self) -> Option<u8> {
        if self.rest == 0 {
            return None;
        }
        let state = self.rest.trailing_zeros() as u8;
        self.rest &= self.rest - 1;
        Some(state)
    }
}
