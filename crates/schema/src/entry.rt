// An entry of a row as one number: a step that counts. From the lowest digit on: the state that it leads from, the state that it leads to, its
// type, that type's tag, and by which kinds of opening the type bears a tree.
ghost use Rattle.std.specs.Prelude.{◌≡◌, ◌%◌};
ghost use Rattle.schema.specs.Ways.{most_ways};
ghost use Rattle.schema.specs.Rows.{entry, from_in, to_in, by_in, tag_in, ways_in};

use crate::value::{STATES, TAGS, TYPES};
use crate::ways::WAYS;
use sdtd::{Tag, TypeNo};

// An entry has room for so many types.
pub const TYPE_ROOM: u32 = 512;

// what one more of each adds to the entry
const TO: u32 = STATES as u32;

pub const TYPE_PLACE: u32 = TO * STATES as u32;

const TAG: u32 = TYPE_PLACE * TYPE_ROOM;

const WAYS_PLACE: u32 = TAG * TAGS as u32;

// One number and no struct of its parts: `reading` tests tag and kind by one sum (docs/SPEED.md has the measures).
// Its parts come out by casts, which lose nothing: each is a remainder below a count that fits a byte.
#[derive(Clone, Copy)]
pub struct Entry(pub u32);

impl Entry {
    pub fn from(self) -> u8
        ensures { result ≡ from_in self.0 }
    {
        (self.0 % u32::from(STATES)) as u8
    }

    pub fn to(self) -> u8
        ensures { result ≡ to_in self.0 }
    {
        (self.0 / TO % u32::from(STATES)) as u8
    }

    pub fn by(self) -> TypeNo
        ensures { result.0 ≡ by_in self.0 }
    {
        TypeNo((self.0 / TYPE_PLACE % TYPES as u32) as u8)
    }

    pub fn tag(self) -> Tag
        ensures { result.0 ≡ tag_in self.0 }
    {
        Tag((self.0 / TAG % u32::from(TAGS)) as u8)
    }

    // by which kinds of opening the type bears a tree: 0 neither, 1 plainly, 2 both, 3 as nil
    pub fn ways(self) -> u8
        ensures { result ≡ ways_in self.0 }
    {
        (self.0 / WAYS_PLACE % u32::from(WAYS)) as u8
    }
}

// The entry of a step. Of ways the remainder is taken, which changes nothing: they are below WAYS.
pub(crate) fn entry_of(from: u8, to: u8, by: TypeNo, tag: Tag, ways: u8) -> Entry
    ensures { result.0 ≡ entry from to by.0 tag.0 (ways % most_ways) }
{
    let opened = u32::from(ways % WAYS);
    Entry(
        u32::from(from)
            + TO * u32::from(to)
            + TYPE_PLACE * u32::from(by.0)
            + TAG * u32::from(tag.0)
            + WAYS_PLACE * opened,
    )
}
