// The rows of entries that trimming lends.
ghost use Rattle.std.specs.Prelude.{◌≡◌, length, get_or};
ghost use Rattle.sdtd.specs.Limits.{most_steps};
ghost use Rattle.schema.specs.Rows.{RowsInside, row_of};

use crate::rows::BEGINS;
use crate::value::{STATES, STEPS};
use sdtd::TypeNo;

// The entries of a schema's steps that count, and where each row of them begins.
#[derive(Clone, Copy)]
pub struct Rows<'a> {
    pub entries: &'a [u32; STEPS],
    pub begins: &'a [u16; BEGINS],
    pub ghost inside: { RowsInside begins.now },
    pub ghost sized: { length entries.now ≡ most_steps },
}

impl<'a> Rows<'a> {
    // Where the row i begins; past the last row, 0.
    fn begin(&self, i: usize) -> usize
        ensures { result ≡ get_or self.now.begins.now i 0 }
    {
        let begins = self.begins;
        begins.get(i).map_or(0, |n| usize::from(*n))
    }

    // The row of the state p of the type a; one that would end before it begins has no entry.
    pub fn row(&self, a: TypeNo, p: u8) -> &'a [u32]
        ensures { result.now ≡ row_of self.now.entries.now self.now.begins.now a.0 p }
    {
        let entries = self.entries;
        let i = usize::from(STATES) * usize::from(a.0) + usize::from(p);
        let start = self.begin(i);
        let end = self.begin(i + 1);
        &entries[start..end.max(start)]
    }
}
