// The tables that are filled while an expression is read.
ghost use Rattle.std.specs.Prelude.{◌≡◌, ◌<◌, ◌+◌, ◌^◌};
ghost use Rattle.expression.specs.Parsing.{Linked, UseSays};

use crate::parsed::Parsed;
use schema::{STATES, StateSet, TYPES};
use sdtd::{Refusal, Refused, TypeNo};

// the entries of a table by states
// The casts of these constants stand since a constant calls no `usize::from` and no `try_from`.
pub const STATE_NUMBERS: usize = STATES as usize;

// "22 for more than 31 uses of 32"
const USES: u8 = STATES - 1;

// the types, as a type's number
const TYPE_NUMBERS: u8 = TYPES as u8;

// By state or use: the uses that follow it, the type that it names and the place of its 32.
#[derive(Clone, Copy)]
pub(crate) struct Tables {
    pub next: [u32; STATE_NUMBERS],
    pub types: [u8; STATE_NUMBERS],
    pub places: [usize; STATE_NUMBERS],
}

impl Tables {
    // Lets each use that can come last be followed by each that can come first.
    pub(crate) fn link(&mut self, last: StateSet, first: StateSet)
        ensures { Linked last.0 first.0 self.old self.new }
    {
        for p in last.states() {
            self.next[usize::from(p)] |= first.0;
        }
    }

    // One use, numbered behind those so far.
    pub(crate) fn one_use(&mut self, at: usize, j: TypeNo, uses: u8) -> Result<Parsed, Refusal>
        requires { at + 2 < 2 ^ 64 }
        ensures { UseSays at j.0 uses self.old self.new result }
    {
        if TYPE_NUMBERS <= j.0 {
            return Err(Refused::OutOfRange.at(at));
        }
        if USES <= uses {
            return Err(Refused::TooManyUses.at(at));
        }
        let own = uses + 1;
        self.types[usize::from(own)] = j.0;
        self.places[usize::from(own)] = at;
        let set = StateSet::NONE.with(own);
        Ok(Parsed {
            at: at + 2,
            first: set,
            last: set,
            uses: own,
            nullable: false,
        })
    }
}
