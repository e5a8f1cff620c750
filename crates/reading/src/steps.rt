// One event at a time over the rows and heads of a schema, on a lent reading: what the calls of a reading and the event file share. Question 10 is
// asked before.
ghost use Rattle.std.specs.Prelude.{◌≡◌, ◌≤◌, ◌<◌};
ghost use Rattle.sdtd.specs.Limits.{most_levels};
ghost use Rattle.events.specs.Events.{kind_of};
ghost use Rattle.reading.specs.Questions.{first_set, gives, opened, closed};
ghost use Rattle.reading.specs.Calls.{typed_of, taken_of};
ghost use Rattle.reading.specs.Sought.{kind_sought, tag_sought};
ghost use Rattle.reading.specs.Heads.{opens_under};
ghost use Rattle.reading.specs.Steps.{coming_first, coming_at, inner_by_rows, open_by, open_by_rows};
ghost use Rattle.reading.specs.Steps.{is_nilled, close_step, close_step_in, finish_step, Steady};

use crate::coming::{Coming, coming_rows};
use crate::heads::{HEADS, head_accepting, head_nillable, head_root, head_tag};
use crate::sought::{Opening, Sought, sought_nil, sought_of};
use crate::tables::Tables;
use crate::value::{LEVELS, Reading};
use schema::{StateSet, TAGS, TYPES};
use sdtd::{Refused, Tag, TypeNo};

// The set of a new element.
fn first_set(o: Sought) -> u32
    ensures { result ≡ first_set (kind_sought o.n) }
{
    if sought_nil(o) {
        StateSet::NONE.0
    } else {
        StateSet::START.0
    }
}

// What opens at the outermost level.
fn opens_under(heads: &[u32; HEADS], o: Sought) -> Coming
    ensures { result ≡ opens_under heads.now (kind_sought o.n) (tag_sought o.n) }
{
    let n = heads[head_root(o)];
    if n == 0 {
        return None;
    }
    // Here and below `as` cuts a remainder that fits: a `try_from` could not fail.
    Some((TypeNo(((n - 1) % TYPES as u32) as u8), StateSet::NONE))
}

// What comes next where no element is open, and no root came or one did.
pub(crate) fn coming_first(heads: &[u32; HEADS], rooted: bool, o: Sought) -> Coming
    ensures { result ≡ coming_first heads.now rooted (kind_sought o.n) (tag_sought o.n) }
{
    if rooted {
        return None;
    }
    opens_under(heads, o)
}

// The tag and the accepting states of the innermost element, and whether its type is nillable.
#[derive(Clone, Copy)]
pub(crate) struct Inner {
    pub tag: Tag,
    pub nillable: bool,
    pub accepting: u32,
}

// Where no element is open, any will do.
pub(crate) const NONE_OPEN: Inner = Inner {
    tag: Tag(0),
    nillable: false,
    accepting: StateSet::NONE.0,
};

// Is the innermost element, whose set is this, a nil one: of a nillable type, with the set of no states?
fn is_nilled(own: Inner, set: u32) -> bool
    ensures { result ≡ is_nilled own set }
{
    own.nillable && set == StateSet::NONE.0
}

impl Reading {
    // One level more, for an element of the type j; the level outside it keeps the states that j leads to.
    fn descend(&mut self, o: Sought, j: TypeNo, kept: StateSet)
        requires { self.old.depth < most_levels }
        ensures { self.new ≡ opened (kind_sought o.n) self.old j.0 kept.0 }
    {
        let depth = usize::from(self.depth);
        self.types[depth] = j.0;
        if 0 < depth {
            self.sets[depth - 1] = kept.0;
        }
        self.sets[depth] = first_set(o);
        self.depth += 1;
        self.rooted = true;
    }

    // What comes next, by the rows.
    #[tactic(auto, unfolding(crate::specs::Steps::coming_at, crate::specs::Coming::coming_of, schema::specs::RowMaking::counted))]
    fn coming(&self, tables: &Tables<'_>, o: Sought) -> Coming
        requires { Steady self.now }
        ensures { result ≡ coming_at tables.now.heads.now (inner_by_rows tables.now.rows self.now (kind_sought o.n) (tag_sought o.n))
            self.now (kind_sought o.n) (tag_sought o.n) }
    {
        let depth = usize::from(self.depth);
        if depth == 0 {
            return coming_first(tables.heads, self.rooted, o);
        }
        let inner = TypeNo(self.types[depth - 1]);
        coming_rows(&tables.rows, inner, StateSet(self.sets[depth - 1]), o)
    }

    // An opening, by what comes next.
    pub(crate) fn open_by(&mut self, o: Sought, next: Coming) -> Result<TypeNo, Refused>
        ensures { gives (typed_of result) self.new ≡ open_by (kind_sought o.n) self.old next }
    {
        match next {
            None => Err(Refused::CannotOpen),
            Some((j, kept)) => {
                if LEVELS <= usize::from(self.depth) {
                    return Err(Refused::TooDeep);
                }
                self.descend(o, j, kept);
                Ok(j)
            }
        }
    }

    // An opening, by the rows.
    #[tactic(auto, unfolding(crate::specs::Steps::coming_at, crate::specs::Steps::open_step, crate::specs::Coming::coming_of))]
    pub(crate) fn step_open(&mut self, tables: &Tables<'_>, o: Opening) -> Result<TypeNo, Refused>
        requires { Steady self.old }
        ensures { gives (typed_of result) self.new ≡ open_by_rows tables.now self.old (kind_of o.kind) o.tag.0 }
    {
        if self.finished {
            return Err(Refused::Finished);
        }
        if tables.tags <= o.tag.0 {
            return Err(Refused::UnknownTag);
        }
        let s = sought_of(o);
        let next = self.coming(tables, s);
        self.open_by(s, next)
    }

    // A closing of the tag g, where `own` has the tag and the accepting states of the innermost element's type, if one is open, and whether it is
    // nillable.
    #[tactic(auto, unfolding(crate::specs::Steps::close_step))]
    pub(crate) fn step_close(&mut self, own: Inner, tags: u8, g: Tag) -> Result<(), Refused>
        requires { self.old.depth ≤ most_levels }
        ensures { gives (taken_of result) self.new ≡ close_step own tags self.old g.0 }
    {
        if self.finished {
            return Err(Refused::Finished);
        }
        if tags <= g.0 {
            return Err(Refused::UnknownTag);
        }
        if self.depth == 0 {
            return Err(Refused::NoneOpen);
        }
        if own.tag != g {
            return Err(Refused::OtherTag);
        }
        let set = self.sets[usize::from(self.depth) - 1];
        // Most elements end in an accepting state: whether the type is nillable is looked at only where this one does not.
        if !StateSet(set).meets(StateSet(own.accepting)) {
            if !is_nilled(own, set) {
                return Err(Refused::NoWord);
            }
        }
        self.depth -= 1;
        Ok(())
    }

    // The same, by the heads.
    #[tactic(auto, unfolding(crate::specs::Steps::close_step_in, crate::specs::Steps::close_step))]
    pub(crate) fn step_close_in(&mut self, tables: &Tables<'_>, g: Tag) -> Result<(), Refused>
        requires { Steady self.old }
        ensures { gives (taken_of result) self.new ≡ close_step_in tables.now.heads.now tables.now.tags self.old g.0 }
    {
        if self.depth == 0 {
            return self.step_close(NONE_OPEN, tables.tags, g);
        }
        let a = usize::from(self.types[usize::from(self.depth) - 1]);
        let own = Inner {
            tag: Tag((tables.heads[head_tag(a)] % TAGS as u32) as u8),
            nillable: 0 < tables.heads[head_nillable(a)],
            accepting: tables.heads[head_accepting(a)],
        };
        self.step_close(own, tables.tags, g)
    }

    // A finish, which leaves the levels as they are.
    #[tactic(auto, unfolding(crate::specs::Steps::finish_step))]
    pub(crate) fn step_finish(&mut self) -> Result<(), Refused>
        ensures { gives (taken_of result) self.new ≡ finish_step self.old }
    {
        if self.finished {
            return Err(Refused::Finished);
        }
        if !self.rooted || 0 < self.depth {
            return Err(Refused::NotClosed);
        }
        self.finished = true;
        Ok(())
    }
}
