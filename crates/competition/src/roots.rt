// The roots of a schema, by the ways in which they bear a tree: whether one does, and two of one tag, where both bear trees opened alike.
ghost use Rattle.std.specs.Prelude.{◌≡◌, ◌↔◌, ◌<◌, IsTrue};
ghost use Rattle.sdtd.specs.Limits.{most_types};
ghost use Rattle.sdtd.specs.Schema.{WithinLimits};
ghost use Rattle.schema.specs.Value.{meaning};
ghost use Rattle.schema.specs.Trimming.{Exact};
ghost use Rattle.competition.specs.Roots.{ways_of_roots, OpensExactly, SomeOpens, RivalAfterMeans, RivalRootsMean};

use crate::rivals::{Rivals, alike};
use schema::{Schema, TYPES, Trimming, opens, root_types};
use sdtd::{Tag, TypeNo};

// The ways of the roots, and 0 for the other types.
fn ways_of_roots(roots: &[bool; TYPES], ways: &[u8; TYPES]) -> [u8; TYPES]
    ensures { result ≡ ways_of_roots roots.now ways.now }
{
    let mut opening = [0; TYPES];
    // By index: two tables are read and a third is written, and three iterators zipped read no plainer.
    for a in 0..TYPES {
        opening[a] = if roots[a] { ways[a] } else { 0 };
    }
    opening
}

// How each type opens a document: the ways of the roots of a schema inside the limits.
pub(crate) fn opening_types(schema: &Schema, trimming: &Trimming) -> [u8; TYPES]
    requires { WithinLimits (meaning schema.now) × Exact (meaning schema.now) trimming.now }
    ensures { OpensExactly (meaning schema.now) result }
{
    let roots = root_types(schema.root, schema.roots);
    ways_of_roots(&roots, &trimming.ways)
}

// Does some type open a document?
pub(crate) fn some_opens(opening: &[u8; TYPES]) -> bool
    ensures { IsTrue result ↔ SomeOpens opening.now }
{
    opening.iter().any(|ways| opens(*ways))
}

// A type after j of j's tag, where both open a document alike.
fn rival_after(opening: &[u8; TYPES], tag: &[u8; TYPES], j: TypeNo) -> Option<TypeNo>
    requires { j.0 < most_types }
    ensures { RivalAfterMeans opening.now tag.now j.0 result }
{
    let first = usize::from(j.0);
    let ways = opening[first];
    if ways == 0 {
        return None;
    }
    let shared = Tag(tag[first]);
    // By index: it is the type's number, and two tables are read at it.
    for k in first + 1..TYPES {
        if Tag(tag[k]) == shared && alike(ways, opening[k]) {
            // A type is below 256; a `try_from` would have a case that never comes.
            return Some(TypeNo(k as u8));
        }
    }
    None
}

// Two types of one tag that open a document alike, the smaller first.
pub(crate) fn rival_roots(opening: &[u8; TYPES], tag: &[u8; TYPES]) -> Option<Rivals>
    ensures { RivalRootsMean opening.now tag.now result }
{
    for i in 0..TYPES {
        // As there: the cast is of a type's number.
        let first = TypeNo(i as u8);
        if let Some(second) = rival_after(opening, tag, first) {
            return Some(Rivals { first, second });
        }
    }
    None
}
