// The search for competition: two roots of one tag; then type by type, breadth first over unordered pairs of states; and the call that answers by
// it.
ghost use Rattle.std.specs.Prelude.{◌<◌, ◌≤◌, length};
ghost use Rattle.sdtd.specs.Limits.{most_types, least_witness};
ghost use Rattle.sdtd.specs.Schema.{WithinLimits};
ghost use Rattle.sdtd.specs.Answer.{number_told};
ghost use Rattle.sdtd.specs.Competition.{CompeteOutside};
ghost use Rattle.schema.specs.Trimming.{Exact};
ghost use Rattle.schema.specs.Value.{meaning};
ghost use Rattle.schema.specs.Rows.{RowsMean, row_of};
ghost use Rattle.competition.specs.Queue.{PairMeans, SearchedAt, CompetingMeans, CompetesMeans};
ghost use Rattle.competition.specs.Roots.{OpensExactly, RootsCompeteMeans};
ghost use Rattle.competition.specs.Search.{SearchMeans};

use crate::marks::Step;
use crate::numbers::Numbers;
use crate::queue::Queue;
use crate::rivals::{Rivals, rivals_at};
use crate::roots::{opening_types, rival_roots};
use crate::trimmed::trimmed;
use crate::witness::{LEAST_WITNESS, NO_PARENT, WitnessHead, write_head, write_witness};
use pairs::{PAIRS, pair_numbers};
use schema::{BEGINS, Rows, STEPS, Schema, TYPES, Trimming, used_in};
use sdtd::{Refused, TypeNo};

// A pair with rivals, by its place in the queue.
#[derive(Clone, Copy)]
pub(crate) struct Pair {
    pub at: usize,
    pub rivals: Rivals,
}

// The search of the type a: the first pair found with rivals, with the queue that leads to it.
fn search_type(numbers: &Numbers<'_>, rows: &Rows<'_>, a: TypeNo, queue: &mut Queue) -> Option<Pair>
    requires { a.0 < most_types }
    ensures { PairMeans (row_of rows.now.entries.now rows.now.begins.now a.0) queue.new.found result }
{
    let mut reached = [false; PAIRS];
    reached[0] = true;
    queue.restart();
    let mut at = 0;
    // no `for`: the queue grows while the search goes over it
    while at < queue.count {
        let found = queue.found[at];
        let left = rows.row(a, found.first);
        let right = rows.row(a, found.second);
        if let Some(rivals) = rivals_at(left, right) {
            return Some(Pair { at, rivals });
        }
        let step = Step {
            numbers: *numbers,
            // A place of the queue is below 528; a `try_from` would have a case that never comes.
            at: at as u16,
        };
        step.search_from(&mut reached, queue, left, right);
        at += 1;
    }
    None
}

// The search of the type a, if it is used.
fn search_at(
    numbers: &Numbers<'_>,
    rows: &Rows<'_>,
    used: &[bool; TYPES],
    a: TypeNo,
    queue: &mut Queue,
) -> Option<Pair>
    requires { a.0 < most_types }
    ensures { SearchedAt (row_of rows.now.entries.now rows.now.begins.now a.0) used.now a.0 queue.new.found result }
{
    if !used[usize::from(a.0)] {
        return None;
    }
    search_type(numbers, rows, a, queue)
}

// Types that compete: in the type `of`, at a pair.
#[derive(Clone, Copy)]
pub(crate) struct Competing {
    pub of: TypeNo,
    pub pair: Pair,
}

// The smallest type in which two compete, by the search of one type after another.
fn first_competing(
    numbers: &Numbers<'_>,
    rows: &Rows<'_>,
    used: &[bool; TYPES],
    queue: &mut Queue,
) -> Option<Competing>
    ensures { CompetingMeans (row_of rows.now.entries.now rows.now.begins.now) used.now queue.new.found result }
{
    for i in 0..TYPES {
        // A type is below 256; a `try_from` would have a case that never comes.
        let of = TypeNo(i as u8);
        if let Some(pair) = search_at(numbers, rows, used, of, queue) {
            return Some(Competing { of, pair });
        }
    }
    None
}

// Do two roots compete, by the table of how types open a document? If so, the two go to the witness buffer, with no parent and no word.
fn roots_compete(schema: &Schema, opening: &[u8; TYPES], witness: &mut [u8]) -> bool
    requires { WithinLimits (meaning schema.now) × OpensExactly (meaning schema.now) opening.now × (least_witness ≤ length witness.old) }
    ensures { RootsCompeteMeans (meaning schema.now) witness.old witness.new result }
{
    if let Some(rivals) = rival_roots(opening, &schema.tag) {
        let head = WitnessHead {
            of: NO_PARENT,
            first: rivals.first,
            second: rivals.second,
            word: 0,
        };
        write_head(witness, head);
        return true;
    }
    false
}

// The search of a schema in which no two roots compete, by its trimming and its rows: do two types compete in a type? If so, the smallest type
// in which two compete, the two and a shortest word after which two compete there go to the witness buffer.
fn types_compete(schema: &Schema, trimming: &Trimming, rows: &Rows<'_>, witness: &mut [u8]) -> bool
    requires { WithinLimits (meaning schema.now) × Exact (meaning schema.now) trimming.now
        × RowsMean (meaning schema.now) rows.now.entries.now rows.now.begins.now
        × (¬ CompeteOutside (meaning schema.now)) × (least_witness ≤ length witness.old) }
    ensures { CompetesMeans (meaning schema.now) witness.old witness.new result }
{
    let used = used_in(*trimming);
    let mut queue = Queue::new();
    let table = pair_numbers();
    let numbers = Numbers { table: &table };
    if let Some(competing) = first_competing(&numbers, rows, &used, &mut queue) {
        let pair = competing.pair;
        write_witness(witness, competing.of, pair.rivals, &queue, pair.at);
        return true;
    }
    false
}

// The search of a schema inside the limits by its trimming, its roots' ways and its rows. Roots are looked at before all else.
pub(crate) fn competes(
    schema: &Schema,
    trimming: &Trimming,
    opening: &[u8; TYPES],
    rows: &Rows<'_>,
    witness: &mut [u8],
) -> bool
    requires { WithinLimits (meaning schema.now) × Exact (meaning schema.now) trimming.now × OpensExactly (meaning schema.now) opening.now
        × RowsMean (meaning schema.now) rows.now.entries.now rows.now.begins.now × (least_witness ≤ length witness.old) }
    ensures { CompetesMeans (meaning schema.now) witness.old witness.new result }
{
    if roots_compete(schema, opening, witness) {
        return true;
    }
    types_compete(schema, trimming, rows, witness)
}

// Is there no competition?
pub fn competition(schema: &Schema, witness: &mut [u8]) -> Result<(), Refused>
    ensures { SearchMeans (meaning schema.now) witness.old witness.new (number_told result) }
{
    if witness.len() < LEAST_WITNESS {
        return Err(Refused::ShortWitness);
    }
    let mut entries = [0u32; STEPS];
    let mut begins = [0u16; BEGINS];
    let Some(trimming) = trimmed(schema, &mut entries, &mut begins) else {
        return Err(Refused::OutsideLimits);
    };
    let opening = opening_types(schema, &trimming);
    let rows = Rows {
        entries: &entries,
        begins: &begins,
    };
    if competes(schema, &trimming, &opening, &rows, witness) {
        return Err(Refused::Competition);
    }
    Ok(())
}
