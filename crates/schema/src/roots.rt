// The root types of a schema.
ghost use Rattle.std.specs.Prelude.{◌≡◌, ◌↔◌, ◌<◌, T, All, get_or};
ghost use Rattle.schema.specs.Value.{roots_of};
ghost use Rattle.schema.specs.Limits.{RootsWithin};
ghost use Rattle.schema.specs.Trimming.{MarksExactly};
ghost use Rattle.schema.specs.Spread.{mark_type};

use crate::value::{ROOTS, Schema, TYPES};
use sdtd::TypeNo;

// The root at a place of the table; past its end the type 0.
fn root_at(root: [u8; ROOTS], i: usize) -> TypeNo
    ensures { result.0 ≡ get_or root i 0 }
{
    if ROOTS <= i {
        return TypeNo(0);
    }
    TypeNo(root[i])
}

// Is each root below the number of types?
fn roots_below(roots: &[u8], types: u8) -> bool
    ensures { T result ↔ All (λ a. a < types) roots.now }
{
    roots.iter().all(|a| *a < types)
}

// Are there one to eight roots, each below the number of types?
pub(crate) fn roots_within(schema: &Schema) -> bool
    ensures { T result ↔ RootsWithin schema.now.root schema.now.roots schema.now.types }
{
    let n = usize::from(schema.roots);
    if n == 0 {
        return false;
    }
    if ROOTS < n {
        return false;
    }
    roots_below(&schema.root[..n], schema.types)
}

// The type is marked, if the table has an entry for it.
#[tactic(auto, unfolding(crate::specs::Spread::mark_type))]
fn mark_type(marked: &mut [bool; TYPES], a: TypeNo)
    ensures { marked.new ≡ mark_type a.0 marked.old }
{
    let i = usize::from(a.0);
    if i < TYPES {
        marked[i] = true;
    }
}

// Which types are roots, by the table of roots and their count, which in a made-up value may pass the table's end.
pub fn root_types(root: [u8; ROOTS], roots: u8) -> [bool; TYPES]
    ensures { MarksExactly (roots_of root roots) result }
{
    let mut marked = [false; TYPES];
    for i in 0..usize::from(roots) {
        mark_type(&mut marked, root_at(root, i));
    }
    marked
}
