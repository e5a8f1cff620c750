// What a walk over an event file looks up.
ghost use Rattle.std.specs.Prelude.{◌≤◌};
ghost use Rattle.sdtd.specs.Limits.{most_tags};

use crate::heads::HEADS;
use schema::Rows;

// The rows and heads of a schema, and its count of tags.
#[derive(Clone, Copy)]
pub(crate) struct Tables<'a> {
    pub tags: u8,
    pub rows: Rows<'a>,
    pub heads: &'a [u32; HEADS],
    pub ghost few: { tags ≤ most_tags },
}
