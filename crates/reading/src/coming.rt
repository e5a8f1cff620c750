// Which type comes next under a tag, inside an element: the smallest that bears a tree opened so and leads from the states kept to a live state.
ghost use Rattle.std.specs.Prelude.{◌≡◌, cond, ◌≤◌, ◌<◌, ltb};
ghost use Rattle.sdtd.specs.Limits.{most_types, most_states};
ghost use Rattle.schema.specs.States.{no_states};
ghost use Rattle.reading.specs.Coming.{joins, entry_moves, row_moves, moves_by_rows, coming_of, coming_by, join as joined};
ghost use Rattle.reading.specs.Sought.{kind_sought, tag_sought};

use crate::sought::{Sought, type_under};
use schema::{Entry, Rows, STATES, StateSet, TYPES};
use sdtd::TypeNo;

// What comes next for an opening, if anything does: a type, and the states that it leads to.
pub(crate) type Coming = Option<(TypeNo, StateSet)>;

// The states kept before a step by t: none where t is smaller than the type that they came by.
fn kept_before(t: u32, was: u32, kept: u32) -> u32
    ensures { result ≡ cond (ltb t was) no_states kept }
{
    if t < was { StateSet::NONE.0 } else { kept }
}

// The smaller of the two types, by the same comparison as above.
fn smaller(t: u32, was: u32) -> u32
    ensures { result ≡ cond (ltb t was) t was }
{
    if t < was { t } else { was }
}

// What came so far: the smallest type, and the states that it leads to.
#[derive(Clone, Copy)]
pub(crate) struct Least {
    pub of: u32,
    pub kept: u32,
}

// no type came yet: a number past every type
pub(crate) const NONE_YET: Least = Least {
    of: TYPES as u32,
    kept: StateSet::NONE.0,
};

impl Least {
    // A step by t to q: the same type adds the state, a smaller one replaces what came so far, a larger one changes nothing.
    // Compiled without a branch: the processor cannot foresee which of the three it is.
    #[tactic(auto, unfolding(crate::specs::Coming::join, schema::specs::States::insert))]
    pub(crate) fn join(&mut self, t: u32, q: u8)
        requires { q < most_states }
        ensures { self.new ≡ joined self.old t q }
    {
        let was = self.of;
        let before = StateSet(kept_before(t, was, self.kept));
        // a state past the last one adds nothing
        self.kept = before.with(q + STATES * ((was < t) as u8)).0;
        self.of = smaller(t, was);
    }

    // An entry, if it can be opened.
    #[tactic(auto, unfolding(crate::specs::Coming::joins, crate::specs::Coming::join, schema::specs::States::insert))]
    fn join_entry(&mut self, e: Entry, o: Sought, short: bool)
        requires { self.old.of ≤ most_types }
        ensures { self.new ≡ joins (entry_moves (kind_sought o.n) (tag_sought o.n) e.0) self.old }
    {
        let t = type_under(e, o);
        if !short {
            // In a long row the entries that change nothing are mostly foreseen.
            if self.of < t {
                return;
            }
        }
        self.join(t, e.to());
    }

    // The entries of a row that can be opened.
    #[tactic(auto, unfolding(crate::specs::Coming::joins, crate::specs::Coming::join))]
    fn join_row(&mut self, row: &[u32], o: Sought)
        requires { self.old.of ≤ most_types }
        ensures { self.new ≡ joins (row_moves (kind_sought o.n) (tag_sought o.n) row.now) self.old }
    {
        let short = row.len() <= SHORT;
        for e in row {
            self.join_entry(Entry(*e), o, short);
        }
    }

    // The smallest type of all, if one came.
    #[tactic(auto, unfolding(crate::specs::Coming::coming_of))]
    pub(crate) fn coming(self) -> Coming
        requires { self.of ≤ most_types }
        ensures { result ≡ coming_of self }
    {
        if self.kept == StateSet::NONE.0 {
            return None;
        }
        // `as`: a type that came is below TYPES
        Some((TypeNo(self.of as u8), StateSet(self.kept)))
    }
}

// A row of so many entries or fewer is short.
const SHORT: usize = 8;

// What comes next from the states of the set, by the rows of the type a.
pub(crate) fn coming_rows(rows: &Rows<'_>, a: TypeNo, states: StateSet, o: Sought) -> Coming
    ensures { result ≡ coming_by (moves_by_rows rows.now.entries.now rows.now.begins.now a.0 states.0 (kind_sought o.n) (tag_sought o.n)) }
{
    let mut least = NONE_YET;
    for q in states.states() {
        least.join_row(rows.row(a, q), o);
    }
    least.coming()
}
