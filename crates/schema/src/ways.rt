// By which kinds of opening a type bears a tree, as one number: 0 neither, 1 plainly, 2 both, 3 as nil. A byte and no enum: C reads it in `Trimming`.
ghost use Rattle.std.specs.Prelude.{◌≡◌, ◌||◌, ◌%◌, ◌≤◌};
ghost use Rattle.sdtd.specs.Limits.{most_types};
ghost use Rattle.sdtd.specs.Tree.{plain, nil};
ghost use Rattle.schema.specs.Ways.{opens_by, bears_in};
ghost use Rattle.schema.specs.Spread.{ways_of, ways_by};
ghost use Rattle.schema.specs.States.{member};

use crate::state_set::StateSet;
use crate::value::TYPES;
use sdtd::TypeNo;

// How many such numbers there are.
pub const WAYS: u8 = 4;

// Does the number say: plainly?
pub fn opens_plainly(w: u8) -> bool
    ensures { result ≡ opens_by plain w }
{
    (0 < w) & (w < 3)
}

// Does it say: as nil?
pub fn opens_as_nil(w: u8) -> bool
    ensures { result ≡ opens_by nil w }
{
    (1 < w) & (w < WAYS)
}

// Does it say either?
pub fn opens(w: u8) -> bool
    ensures { result ≡ (opens_by plain w || opens_by nil w) }
{
    opens_plainly(w) | opens_as_nil(w)
}

// The number of a type, by its live states and whether it is nillable.
pub(crate) fn ways_of(live: u32, nillable: bool) -> u8
    ensures { result ≡ ways_of (member 0 live) nillable }
{
    if StateSet(live).has(0) {
        return if nillable { 2 } else { 1 };
    }
    if nillable { 3 } else { 0 }
}

// Does the table say that the type bears a tree? Inside the limits the remainder changes nothing: a type is below TYPES.
pub(crate) fn bears_in(ways: &[u8; TYPES], a: TypeNo) -> bool
    ensures { result ≡ bears_in ways.now (a.0 % most_types) }
{
    opens(ways[usize::from(a.0) % TYPES])
}

// The numbers of the types, by their live states; 0 for the others.
pub(crate) fn ways_by(nillable: &[bool; TYPES], types: usize, live: &[u32; TYPES]) -> [u8; TYPES]
    requires { types ≤ most_types }
    ensures { result ≡ ways_by nillable.now types live.now }
{
    let mut ways = [0; TYPES];
    for a in 0..types {
        ways[a] = ways_of(live[a], nillable[a]);
    }
    ways
}
