// A schema whose types, and their steps, stand inside its tables.
ghost use Rattle.std.specs.Prelude.{◌≤◌};
ghost use Rattle.sdtd.specs.Limits.{most_types, most_steps};
ghost use Rattle.schema.specs.Value.{offset};

use crate::value::Schema;

// Each schema inside the limits is one.
#[derive(Clone, Copy)]
pub(crate) struct Accepted<'a> {
    pub schema: &'a Schema,
    ghost types: { schema.now.types ≤ most_types },
    ghost steps: { offset schema.now.steps schema.now.types ≤ most_steps },
}
