// An opening that is asked for, and the test of an entry for it.
ghost use Rattle.std.specs.Prelude.{◌≡◌, cond, ◌*◌, ◌≤◌, ◌<◌};
ghost use Rattle.sdtd.specs.Limits.{most_tags};
ghost use Rattle.sdtd.specs.Tree.{plain, nil};
ghost use Rattle.events.specs.Events.{kind_of};
ghost use Rattle.reading.specs.Sought.{kind_place, rotated_by, rotation, kind_sought, tag_sought, IsSought, TypeUnder};

use events::Kind;
use schema::{Entry, TAGS, TYPE_PLACE, TYPE_ROOM, TYPES};
use sdtd::Tag;

// An opening that is asked for: a tag, plainly or as nil.
#[derive(Clone, Copy)]
pub(crate) struct Opening {
    pub kind: Kind,
    pub tag: Tag,
}

// What one more in the second binary digit of an entry's ways adds, counted from the type's place. The casts of this file are of constants.
const KIND_PLACE: u32 = 2 * TAGS as u32 * TYPE_ROOM;

// An entry's type, tag and ways with so much added: of the type and the tag what is inside their room, of the ways the second digit. Compiled by
// itself it is one sum and one mask, and stays so where it is called.
fn rotated(e: Entry, more: u32) -> u32
    requires { more ≤ 2 * kind_place }
    ensures { result ≡ rotated_by more e.0 }
{
    let sum = e.0 / TYPE_PLACE + more;
    sum % TYPES as u32
        + sum / TYPE_ROOM % TAGS as u32 * TYPE_ROOM
        + sum / KIND_PLACE % 2 * KIND_PLACE
}

// An opening as what is added to an entry to test it: less by TYPE_ROOM for each tag, and by TAGS times as much for a nil opening.
// It stays one number, of the tag and the kind together: with two the walk over R took 1.15 to 1.25 of its time.
#[derive(Clone, Copy)]
pub(crate) struct Sought {
    pub n: u32,
    pub ghost is: { IsSought n },
}

pub(crate) fn sought_of(o: Opening) -> Sought
    requires { o.tag.0 < most_tags }
    ensures { result.n ≡ rotation (kind_of o.kind) o.tag.0 }
{
    let n = match o.kind {
        Kind::Nil => TYPE_ROOM * u32::from(2 * TAGS - o.tag.0),
        Kind::Plain => TYPE_ROOM * u32::from(3 * TAGS - o.tag.0),
    };
    Sought { n }
}

// Is it as nil?
pub(crate) fn sought_nil(o: Sought) -> bool
    ensures { cond result nil plain ≡ kind_sought o.n }
{
    o.n <= 2 * TAGS as u32 * TYPE_ROOM
}

// The type of an entry under the opening's tag that bears a tree opened so; of any other entry, a number larger than that of no type yet. Rotated,
// an entry's tag is 0 exactly where it is the one asked for, and the second digit of its ways exactly where they have the kind.
pub(crate) fn type_under(e: Entry, o: Sought) -> u32
    ensures { TypeUnder (kind_sought o.n) (tag_sought o.n) e.0 result }
{
    rotated(e, o.n)
}
