// Trimming: which states are live, in which ways types bear a tree, which types are reached; and the rows, in tables that the caller lends.
ghost use Rattle.std.specs.Prelude.{◌≡◌, ◌≤◌, T};
ghost use Rattle.sdtd.specs.Limits.{most_types};
ghost use Rattle.sdtd.specs.Schema.{WithinLimits};
ghost use Rattle.schema.specs.Value.{steps_of, meaning, SetsFit};
ghost use Rattle.schema.specs.Spread.{spread_all, Settled, first_sets, start_states, ways_by};
ghost use Rattle.schema.specs.Trimming.{LiveExactly, WaysExactly, Exact, TrimMeans, LiveMeans, RowsLent};

use crate::accepted::Accepted;
use crate::limits::within;
use crate::reach::reached_types;
use crate::roots::root_types;
use crate::rows::{BEGINS, clear_rows, make_rows};
use crate::spread::{Way, settle};
use crate::state_set::StateSet;
use crate::value::{STEPS, Schema, TYPES};
use crate::ways::ways_by;

// Whether a schema is inside the limits. At the place a: the live states of the type a as a set, by which kinds of opening it bears a tree,
// whether it is reached. It is C's too, so whether there are tables is a flag beside them.
#[repr(C)]
#[derive(Clone, Copy)]
pub struct Trimming {
    pub inside: bool,
    pub live: [u32; TYPES],
    pub ways: [u8; TYPES],
    pub reached: [bool; TYPES],
}

// The first `types` entries, and nothing in the others.
fn first_sets(sets: &[u32; TYPES], types: usize) -> [u32; TYPES]
    requires { types ≤ most_types }
    ensures { result ≡ first_sets types sets.now }
{
    let mut kept = [StateSet::NONE.0; TYPES];
    kept[..types].copy_from_slice(&sets[..types]);
    kept
}

// The live states: those before a step by a tree-bearing type to a live state are added, round by round, to the accepting ones; and in which ways the
// types bear a tree.
fn live_states(accepted: &Accepted<'_>) -> LiveStates
    ensures { Settled
        (λ t. spread_all accepted.now.schema.now.steps (steps_of accepted.now.schema.now.from accepted.now.schema.now.by accepted.now.schema.now.to)
        (ways_by accepted.now.schema.now.nillable accepted.now.schema.now.types) 0 0 accepted.now.schema.now.types t)
        (first_sets accepted.now.schema.now.types accepted.now.schema.now.accepting) result.live
        × (result.ways ≡ ways_by accepted.now.schema.now.nillable accepted.now.schema.now.types result.live) }
{
    let schema = accepted.schema;
    let types = usize::from(schema.types);
    let first = first_sets(&schema.accepting, types);
    let mut ways = ways_by(&schema.nillable, types, &first);
    let live = settle(accepted, Way::Back, &mut ways, first);
    LiveStates { live, ways }
}

// The states that tree-bearing types lead to from the start states, round by round.
fn forward_states(accepted: &Accepted<'_>, mut ways: [u8; TYPES]) -> [u32; TYPES]
    ensures { Settled
        (λ t. spread_all accepted.now.schema.now.steps (steps_of accepted.now.schema.now.to accepted.now.schema.now.by accepted.now.schema.now.from) (λ _. ways) 0 0 accepted.now.schema.now.types t)
        start_states result }
{
    settle(accepted, Way::Forth, &mut ways, [StateSet::START.0; TYPES])
}

// The live states of each type as a set, and by which kinds of opening it bears a tree, as the byte that C reads in `Trimming`.
#[derive(Clone, Copy)]
pub struct LiveStates {
    pub live: [u32; TYPES],
    pub ways: [u8; TYPES],
}

// The live states of a schema inside the limits, and in which ways its types bear a tree; nothing for any other.
pub fn live(schema: &Schema) -> Option<LiveStates>
    ensures means { LiveMeans (meaning schema.now) result }
    ensures sets { SetsFit schema.now }
{
    if !within(schema) {
        return None;
    }
    let accepted = Accepted { schema };
    Some(live_states(&accepted))
}

// The same of a schema inside the limits; its steps that count go in rows to the lent tables: their entries, and where each row begins. For
// any other there is nothing, and the lent tables are zeros.
pub fn live_rows<'a>(
    schema: &Schema,
    entries: &'a mut [u32; STEPS],
    begins: &'a mut [u16; BEGINS],
) -> Option<LiveStates>
    ensures means { LiveMeans (meaning schema.now) result × RowsLent (meaning schema.now) entries.new begins.new }
    ensures sets { SetsFit schema.now }
{
    clear_rows(entries, begins);
    let found = live(schema)?;
    make_rows(schema, &found, entries, begins);
    Some(found)
}

// The tables of a schema inside the limits, by its live states and the ways in which its types bear a tree.
pub(crate) fn trim_inside(schema: &Schema, found: &LiveStates) -> Trimming
    requires { SetsFit schema.now × WithinLimits (meaning schema.now) × LiveExactly (meaning schema.now) found.now.live
        × WaysExactly (meaning schema.now) found.now.ways }
    ensures { T result.inside × Exact (meaning schema.now) result }
{
    let accepted = Accepted { schema };
    let forward = forward_states(&accepted, found.ways);
    let roots = root_types(schema.root, schema.roots);
    let reached = reached_types(&accepted, found, &forward, &roots);
    Trimming {
        inside: true,
        live: found.live,
        ways: found.ways,
        reached,
    }
}

// The tables of a schema inside the limits; its rows go to the lent tables. For any other tables of nothing, and zeros in the lent ones.
pub fn trim<'a>(
    schema: &Schema,
    entries: &'a mut [u32; STEPS],
    begins: &'a mut [u16; BEGINS],
) -> Trimming
    ensures means { TrimMeans (meaning schema.now) result × RowsLent (meaning schema.now) entries.new begins.new }
    ensures sets { SetsFit schema.now }
{
    clear_rows(entries, begins);
    match live(schema) {
        None => Trimming {
            inside: false,
            live: [StateSet::NONE.0; TYPES],
            ways: [0; TYPES],
            reached: [false; TYPES],
        },
        Some(found) => {
            make_rows(schema, &found, entries, begins);
            trim_inside(schema, &found)
        }
    }
}
