// The reading's part of question 10.
ghost use Rattle.std.specs.Prelude.{◌↔◌, T};
ghost use Rattle.reading.specs.Coming.{LevelsFit, LevelFits};

use crate::value::{LEVELS, Reading};
use schema::{StateSet, TYPES};
use sdtd::TypeNo;

// Is a level's type below the count, and its set below that type's states?
fn level_within(a: TypeNo, set: StateSet, types: u8, states: &[u8; TYPES]) -> bool
    ensures { T result ↔ LevelFits types states.now a.0 set.0 }
{
    if types <= a.0 {
        return false;
    }
    set.below(states[usize::from(a.0) % TYPES])
}

impl Reading {
    // Are the open levels at most LEVELS, and each of them inside the counts?
    pub(crate) fn levels_within(&self, types: u8, states: &[u8; TYPES]) -> bool
        ensures { T result ↔ LevelsFit types states.now self.now }
    {
        let depth = usize::from(self.depth);
        if LEVELS < depth {
            return false;
        }
        // by index: two tables are read at each level
        for n in 0..depth {
            let a = TypeNo(self.types[n]);
            let set = StateSet(self.sets[n]);
            if !level_within(a, set, types, states) {
                return false;
            }
        }
        true
    }
}
