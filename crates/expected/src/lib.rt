// What would have been taken where an event file was refused: the open elements' types, and the openings, closing and finish that the reading
// would have taken there.
#![tactic(auto)]

mod list;
mod types;

ghost use Rattle.schema.specs.Value.{meaning};
ghost use Rattle.std.specs.Prelude.{◌≡◌};
ghost use Rattle.sdtd.specs.Answer.{refused_at};
ghost use Rattle.expected.specs.Expected.{nothing, laid_out, ExpectedMeans};

use list::list_openings;
use reading::{LEVELS, TAG_NUMBERS, pass_events};
use schema::Schema;
use types::open_types;

// two kinds for each tag
pub const OPENINGS: usize = 2 * TAG_NUMBERS;

// The number and place of the refusal, as a walk with no types' buffer finds them; 0 and the file's length where it is taken whole. The types of the
// open elements, `depth` of them, from the root down. The openings that would have been taken, `count` of them: of each the tag, and whether it is as
// nil; rising by tag, plain before nil. Whether a closing, and whether a finish would have been. Entries past the counts are 0.
// Numbers, tables and counts beside one another: C reads this layout.
#[repr(C)]
#[derive(Clone, Copy)]
pub struct Expected {
    pub number: u8,
    pub place: usize,
    pub depth: usize,
    pub types: [u8; LEVELS],
    pub count: usize,
    pub tags: [u8; OPENINGS],
    pub nils: [bool; OPENINGS],
    pub closes: bool,
    pub finishes: bool,
}

// Nothing is open and nothing would be taken, beside a refusal's number and place.
// The refusal is handed in as its number, as the layout has it.
pub fn nothing_expected(number: u8, place: usize) -> Expected
    ensures { result ≡ laid_out place (nothing (refused_at number place)) }
{
    Expected {
        number,
        place,
        depth: 0,
        types: [0; LEVELS],
        count: 0,
        tags: [0; OPENINGS],
        nils: [false; OPENINGS],
        closes: false,
        finishes: false,
    }
}

// What would have been taken where the event file is refused.
pub fn expect_next(schema: &Schema, events: &[u8]) -> Expected
    ensures { ExpectedMeans (meaning schema.now) events.now result }
{
    let stop = pass_events(schema, events);
    let depth = usize::from(stop.reading.depth);
    let types = open_types(&stop.reading.types, depth);
    let list = list_openings(&stop.opens, &stop.opens_nil);
    let tags = list.tags;
    let nils = list.nils;
    Expected {
        number: stop.number,
        place: stop.place,
        depth,
        types,
        count: list.count,
        tags,
        nils,
        closes: stop.closes,
        finishes: stop.finishes,
    }
}
