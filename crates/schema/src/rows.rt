// The steps that count, in rows: for each type, state by state, the entries of its steps from that state.
ghost use Rattle.std.specs.Prelude.{◌≡◌, ◌∷◌, [], ◌+◌, ◌*◌, ◌≤◌, ◌<◌, length, get_or};
ghost use Rattle.sdtd.specs.Limits.{most_types, most_states, most_steps};
ghost use Rattle.sdtd.specs.Schema.{WithinLimits};
ghost use Rattle.schema.specs.Value.{steps_of, meaning, SetsFit};
ghost use Rattle.schema.specs.Steps.{meant};
ghost use Rattle.schema.specs.Trimming.{LiveExactly, WaysExactly};
ghost use Rattle.schema.specs.Rows.{most_rows, RowsMean};
ghost use Rattle.schema.specs.Putting.{put_all};
ghost use Rattle.schema.specs.RowMaking.{counts_by, entry_by, picked, counted as counted_by, row_tables, no_rows, add_row, add_rows};

use crate::entry::{Entry, entry_of};
use crate::span::Span;
use crate::state_set::StateSet;
use crate::steps::Step;
use crate::tables::LiveStates;
use crate::value::{STATES, STEPS, Schema, TYPES};
use crate::ways::bears_in;
use sdtd::Tag;

// A row for each state of each type.
pub const ROWS: usize = TYPES * STATES as usize;

// Where each row begins; it ends where the next begins. Past the rows of the last type all is 0, and no entry stands there.
pub const BEGINS: usize = ROWS + 1;

// Does the step count, where `own` are the live states of the type that has it?
#[tactic(auto, unfolding(crate::specs::RowMaking::counts_by))]
fn counts(ways: &[u8; TYPES], own: u32, step: Step) -> bool
    ensures { result ≡ counts_by ways.now own (meant step) }
{
    if !bears_in(ways, step.by) {
        return false;
    }
    StateSet(own).has(step.to)
}

// The step's entry. Inside the limits the remainder changes nothing: a type is below TYPES.
fn entry_for(schema: &Schema, ways: &[u8; TYPES], step: Step) -> Entry
    ensures { result.0 ≡ entry_by schema.now.tag ways.now (meant step) }
{
    let b = usize::from(step.by.0) % TYPES;
    entry_of(step.from, step.to, step.by, Tag(schema.tag[b]), ways[b])
}

// The entries of the steps of the type a that count, from the first place on; and how many there are.
fn counted(
    schema: &Schema,
    found: &LiveStates,
    a: usize,
    span: Span,
    kept: &mut [u32; STEPS],
) -> usize
    requires { a < most_types }
    ensures { (kept.new
        ≡ put_all (counted_by schema.now.tag found.now.ways (get_or found.now.live a 0)
        (steps_of schema.now.from schema.now.by schema.now.to span.start span.n)) 0 kept.old)
        × (result
        ≡ length (counted_by schema.now.tag found.now.ways (get_or found.now.live a 0)
        (steps_of schema.now.from schema.now.by schema.now.to span.start span.n))) }
{
    let ways = &found.ways;
    let own = found.live[a];
    let mut n = 0;
    for step in schema.steps_in(span) {
        if counts(ways, own, step) {
            let entry = entry_for(schema, ways, step);
            kept[n] = entry.0;
            n += 1;
        }
    }
    n
}

// The entry at the place `at`, if it leads from the state p; and the place past it.
#[tactic(auto, unfolding(crate::specs::RowMaking::picked, crate::specs::Putting::put_all))]
fn pick_one(entries: &mut [u32; STEPS], at: usize, e: u32, p: u8) -> usize
    requires { at + length (picked p (e ∷ [])) ≤ most_steps }
    ensures { (entries.new ≡ put_all (picked p (e ∷ [])) at entries.old)
        × (result ≡ at + length (picked p (e ∷ []))) }
{
    if Entry(e).from() != p {
        return at;
    }
    entries[at] = e;
    at + 1
}

// The entries kept that lead from the state p, from the place `at` on; and the place past them.
#[tactic(auto, unfolding(crate::specs::RowMaking::picked, crate::specs::Putting::put_all))]
fn pick(entries: &mut [u32; STEPS], at: usize, kept: &[u32], p: u8) -> usize
    requires { at + length (picked p kept.now) ≤ most_steps }
    ensures { (entries.new ≡ put_all (picked p kept.now) at entries.old)
        × (result ≡ at + length (picked p kept.now)) }
{
    let mut past = at;
    for e in kept {
        past = pick_one(entries, past, *e, p);
    }
    past
}

// The row i, of the state p, from the entries kept, put where the rows before it end. No place is past STEPS, so the cast loses nothing.
#[tactic(auto, unfolding(crate::specs::RowMaking::add_row, crate::specs::RowMaking::picked, crate::specs::Putting::put_all))]
fn add_row(entries: &mut [u32; STEPS], begins: &mut [u16; BEGINS], i: usize, kept: &[u32], p: u8)
    requires { (i < most_rows) × (get_or begins.old i 0 + length (picked p kept.now) ≤ most_steps) }
    ensures { row_tables entries.new begins.new
        ≡ add_row (picked p kept.now) i (row_tables entries.old begins.old) }
{
    let at = usize::from(begins[i]);
    let past = pick(entries, at, kept, p);
    begins[i + 1] = past as u16;
}

// The rows of the type a, from the entries kept. A type has none from a state of `states` or more: those rows end where they begin.
fn type_rows(
    entries: &mut [u32; STEPS],
    begins: &mut [u16; BEGINS],
    a: usize,
    kept: &[u32],
    states: u8,
)
    requires { (a < most_types) × (most_rows < length begins.old)
        × (get_or begins.old (most_states * a) 0 + length kept.now ≤ most_steps) }
    ensures { row_tables entries.new begins.new
        ≡ add_rows kept.now states (most_states * a) 0 most_states (row_tables entries.old begins.old) }
{
    let first = usize::from(STATES) * a;
    let held = states.min(STATES);
    for p in 0..held {
        add_row(entries, begins, first + usize::from(p), kept, p);
    }
    let end = begins[first + usize::from(held)];
    for q in usize::from(held)..usize::from(STATES) {
        begins[first + q + 1] = end;
    }
}

// Tables of zeros: no row has an entry.
pub(crate) fn clear_rows(entries: &mut [u32; STEPS], begins: &mut [u16; BEGINS])
    ensures { row_tables entries.new begins.new ≡ no_rows }
{
    *entries = [0; STEPS];
    *begins = [0; BEGINS];
}

// The rows of a schema inside the limits, by exactly its live states and the ways in which its types bear a tree, into tables of zeros.
pub(crate) fn make_rows(
    schema: &Schema,
    found: &LiveStates,
    entries: &mut [u32; STEPS],
    begins: &mut [u16; BEGINS],
)
    requires { SetsFit schema.now × WithinLimits (meaning schema.now) × WaysExactly (meaning schema.now) found.now.ways
        × LiveExactly (meaning schema.now) found.now.live × (row_tables entries.old begins.old ≡ no_rows) }
    ensures { RowsMean (meaning schema.now) entries.new begins.new }
{
    let mut kept = [0u32; STEPS];
    let mut start = 0;
    for a in 0..usize::from(schema.types) {
        let n = usize::from(schema.steps[a]);
        let span = Span { start, n };
        let count = counted(schema, found, a, span, &mut kept);
        type_rows(entries, begins, a, &kept[..count], schema.states[a]);
        start += n;
    }
}
