// The openings that would have been taken, listed: rising by tag, plain before nil.
ghost use Rattle.std.specs.Prelude.{◌≡◌, ◌<◌};
ghost use Rattle.events.specs.Events.{kind_of};
ghost use Rattle.expected.specs.Expected.{as_nil, most_openings};
ghost use Rattle.expected.specs.Listing.{listed_by, flags_in, listing, with_opening};

use crate::OPENINGS;
use events::Kind;
use reading::TAG_NUMBERS;
use sdtd::Tag;

// A list of `count` openings: of each the tag, and whether it is as nil. Entries past the count are 0.
// Two tables and a count, as `Expected` has them for C.
#[derive(Clone, Copy)]
pub(crate) struct Listing {
    pub count: usize,
    pub tags: [u8; OPENINGS],
    pub nils: [bool; OPENINGS],
}

impl Listing {
    // Puts the opening at the list's end, if the flag says so.
    fn add(&mut self, on: bool, kind: Kind, tag: Tag)
        requires { self.old.count < most_openings }
        ensures { self.new ≡ with_opening self.old on tag.0 (as_nil (kind_of kind)) }
    {
        if !on {
            return;
        }
        self.tags[self.count] = tag.0;
        self.nils[self.count] = matches!(kind, Kind::Nil);
        self.count += 1;
    }
}

// The openings that the flags allow: an entry for each tag, opened plainly and as nil.
pub(crate) fn list_openings(opens: &[bool; TAG_NUMBERS], nils: &[bool; TAG_NUMBERS]) -> Listing
    ensures { result ≡ listing (listed_by (flags_in opens.now nils.now)) }
{
    let mut list = Listing {
        count: 0,
        tags: [0; OPENINGS],
        nils: [false; OPENINGS],
    };
    // By index: it is the tag, and two tables are read at it.
    for g in 0..TAG_NUMBERS {
        // A tag is below 256; a `try_from` would have a case that never comes.
        let tag = Tag(g as u8);
        list.add(opens[g], Kind::Plain, tag);
        list.add(nils[g], Kind::Nil, tag);
    }
    list
}
