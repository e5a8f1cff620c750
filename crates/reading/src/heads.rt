// The table of heads: what the steps of a reading look up by a type or a tag.
ghost use Rattle.std.specs.Prelude.{◌≡◌, ◌+◌, ◌*◌, ◌<◌, get_or};
ghost use Rattle.sdtd.specs.Limits.{most_tags, most_types};
ghost use Rattle.sdtd.specs.Schema.{WithinLimits};
ghost use Rattle.schema.specs.Value.{meaning};
ghost use Rattle.schema.specs.Trimming.{WaysExactly};
ghost use Rattle.events.specs.Events.{kind_of};
ghost use Rattle.reading.specs.Coming.{opens_in};
ghost use Rattle.reading.specs.Sought.{kind_sought, tag_sought};
ghost use Rattle.reading.specs.Heads.{head_tag, head_accepting, head_nillable, head_root, set_head, with_root, add_root, add_roots, RootsFit, HeadsMean};

use crate::sought::{Opening, Sought, sought_of};
use events::Kind;
use schema::{Schema, TAGS, TYPE_ROOM, TYPES, opens_as_nil, opens_plainly};
use sdtd::{Tag, TypeNo};

// Two numbers for each type: its tag and its accepting states. Then for plain openings a number for each tag, 0 where no root opens under it, else
// one more than the type that does; and for nil openings the same. Then for each type 1 if it is nillable, apart from the others: only a closing
// that finds no accepting state looks at it. One table, so that the event loop holds one address. (A constant calls no `From`, so it casts.)
pub(crate) const HEADS: usize = 3 * TYPES + 2 * TAGS as usize;

// Where the numbers of the type a stand.
pub(crate) fn head_tag(a: usize) -> usize
    requires { a < most_types }
    ensures { result ≡ head_tag a }
{
    2 * a
}

pub(crate) fn head_accepting(a: usize) -> usize
    requires { a < most_types }
    ensures { result ≡ head_accepting a }
{
    2 * a + 1
}

pub(crate) fn head_nillable(a: usize) -> usize
    requires { a < most_types }
    ensures { result ≡ head_nillable a }
{
    2 * TYPES + 2 * TAGS as usize + a
}

// Where the number of an opening's tag stands.
pub(crate) fn head_root(o: Sought) -> usize
    ensures { (result ≡ head_root (kind_sought o.n) (tag_sought o.n)) × (result < 2 * most_types + 2 * most_tags) }
{
    // `as`: no `From` leads from u32 to usize
    2 * TYPES + (3 * TAGS as u32 - o.n / TYPE_ROOM) as usize
}

// Does the table of ways say that the type a bears a tree opened so?
pub(crate) fn opens_in(ways: &[u8; TYPES], a: usize, kind: Kind) -> bool
    requires { a < most_types }
    ensures { result ≡ opens_in (kind_of kind) ways.now a }
{
    match kind {
        Kind::Plain => opens_plainly(ways[a]),
        Kind::Nil => opens_as_nil(ways[a]),
    }
}

// The type a, with its tag, whether it is nillable, and its accepting states.
#[tactic(auto, unfolding(crate::specs::Heads::set_head))]
fn lay_head(heads: &mut [u32; HEADS], a: usize, tag: Tag, nillable: bool, accepting: u32)
    requires { a < most_types }
    ensures { heads.new ≡ set_head heads.old a tag.0 nillable accepting }
{
    heads[head_tag(a)] = u32::from(tag.0);
    heads[head_accepting(a)] = accepting;
    heads[head_nillable(a)] = u32::from(nillable);
}

// What stands under a tag once its root type a is seen, where n stood: one more than the smaller type; n is 0 where there was none.
#[tactic(auto, unfolding(crate::specs::Heads::with_root))]
fn with_root(n: u32, a: TypeNo) -> u32
    ensures { result ≡ with_root n a.0 }
{
    let other = u32::from(a.0) + 1;
    if n == 0 {
        return other;
    }
    if other < n {
        return other;
    }
    n
}

// The root type a opens under its tag so, if it bears a tree opened so and no smaller root of the tag does.
#[tactic(auto, unfolding(crate::specs::Heads::add_root, crate::specs::Heads::with_root))]
fn add_root(heads: &mut [u32; HEADS], schema: &Schema, ways: &[u8; TYPES], kind: Kind, a: TypeNo)
    requires { (a.0 < most_types) × (get_or schema.now.tag a.0 0 < most_tags) }
    ensures { heads.new ≡ add_root heads.old schema.now.tag ways.now (kind_of kind) a.0 }
{
    let i = usize::from(a.0);
    if !opens_in(ways, i, kind) {
        return;
    }
    let tag = Tag(schema.tag[i]);
    let at = head_root(sought_of(Opening { kind, tag }));
    heads[at] = with_root(heads[at], a);
}

// So does each of the root types.
#[tactic(auto, unfolding(crate::specs::Heads::add_roots, crate::specs::Heads::add_root, crate::specs::Heads::with_root))]
fn lay_roots(heads: &mut [u32; HEADS], schema: &Schema, ways: &[u8; TYPES], kind: Kind)
    requires { RootsFit schema.now.root schema.now.roots schema.now.tag }
    ensures { heads.new ≡ add_roots heads.old schema.now.tag ways.now (kind_of kind) schema.now.root schema.now.roots }
{
    for i in 0..usize::from(schema.roots) {
        add_root(heads, schema, ways, kind, TypeNo(schema.root[i]));
    }
}

// The heads of a schema, by a table of the ways in which its types bear a tree.
pub(crate) fn heads(schema: &Schema, ways: &[u8; TYPES]) -> [u32; HEADS]
    requires { WithinLimits (meaning schema.now) × WaysExactly (meaning schema.now) ways.now }
    ensures { HeadsMean schema.now result }
{
    let mut all = [0u32; HEADS];
    // by index: three tables are read at each place
    for i in 0..usize::from(schema.types) {
        lay_head(
            &mut all,
            i,
            Tag(schema.tag[i]),
            schema.nillable[i],
            schema.accepting[i],
        );
    }
    // two calls: a loop over the kinds would be no shorter
    lay_roots(&mut all, schema, ways, Kind::Plain);
    lay_roots(&mut all, schema, ways, Kind::Nil);
    all
}
