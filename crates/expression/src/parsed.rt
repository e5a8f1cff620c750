// What is read of a part of an expression.
ghost use Rattle.std.specs.Prelude.{◌≡◌, bit_or};
ghost use Rattle.expression.specs.Parsing.{parsed, beyond, then_by, or_by};

use schema::StateSet;

// The place behind it, the uses up to there, whether the empty word is one of its words, and the uses that can come first and last. The wide
// fields stand first, so that no gap is copied.
#[derive(Clone, Copy)]
pub(crate) struct Parsed {
    pub at: usize,
    pub first: StateSet,
    pub last: StateSet,
    pub uses: u8,
    pub nullable: bool,
}

fn union(set: StateSet, other: StateSet) -> StateSet
    ensures { result.0 ≡ bit_or set.0 other.0 }
{
    StateSet(set.0 | other.0)
}

// The set, with the other where the flag says so.
fn also(on: bool, set: StateSet, other: StateSet) -> StateSet
    ensures { result.0 ≡ beyond on set.0 other.0 }
{
    if on { union(set, other) } else { set }
}

impl Parsed {
    // Nothing read: the empty word or no word.
    pub(crate) fn nothing(at: usize, uses: u8, nullable: bool) -> Parsed
        ensures { result ≡ parsed at uses nullable 0 0 }
    {
        Parsed {
            at,
            first: StateSet::NONE,
            last: StateSet::NONE,
            uses,
            nullable,
        }
    }

    // A sequence with one more factor.
    pub(crate) fn then(self, factor: Parsed) -> Parsed
        ensures { result ≡ then_by self factor }
    {
        Parsed {
            at: factor.at,
            first: also(self.nullable, self.first, factor.first),
            last: also(factor.nullable, factor.last, self.last),
            uses: factor.uses,
            nullable: self.nullable & factor.nullable,
        }
    }

    // A choice with one more sequence.
    pub(crate) fn or(self, sequence: Parsed) -> Parsed
        ensures { result ≡ or_by self sequence }
    {
        Parsed {
            at: sequence.at,
            first: union(self.first, sequence.first),
            last: union(self.last, sequence.last),
            uses: sequence.uses,
            nullable: self.nullable | sequence.nullable,
        }
    }
}
