// Which types a valid document uses: those that are reached and bear a tree.
ghost use Rattle.std.specs.Prelude.{◌≡◌};
ghost use Rattle.schema.specs.Value.{meaning};
ghost use Rattle.schema.specs.Trimming.{used_in, UsedMeans};

use crate::tables::{Trimming, live, trim_inside};
use crate::value::{Schema, TYPES};
use crate::ways::opens;

// By the tables of a trimming.
pub fn used_in(trimming: Trimming) -> [bool; TYPES]
    ensures { result ≡ used_in trimming }
{
    let mut used = [false; TYPES];
    for a in 0..TYPES {
        used[a] = trimming.reached[a] & opens(trimming.ways[a]);
    }
    used
}

// Of a schema inside the limits; for any other none is.
pub fn used_types(schema: &Schema) -> [bool; TYPES]
    ensures { UsedMeans (meaning schema.now) result }
{
    match live(schema) {
        None => [false; TYPES],
        Some(found) => used_in(trim_inside(schema, &found)),
    }
}
