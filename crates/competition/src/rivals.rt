// Rival steps at a pair of states: an entry of the one's row and an entry of the other's, by different types of one tag that bear trees opened
// alike.
ghost use Rattle.std.specs.Prelude.{◌≡◌, ◌↔◌, IsTrue};
ghost use Rattle.competition.specs.Rivals.{open_alike, IsOther, RivalMeans, RivalsMean};

use schema::{Entry, opens_as_nil, opens_plainly};
use sdtd::TypeNo;

// Two types that compete.
#[derive(Clone, Copy)]
pub(crate) struct Rivals {
    pub first: TypeNo,
    pub second: TypeNo,
}

// Have two numbers of ways a kind in common?
pub(crate) fn alike(w: u8, v: u8) -> bool
    ensures { result ≡ open_alike w v }
{
    (opens_as_nil(w) & opens_as_nil(v)) | (opens_plainly(w) & opens_plainly(v))
}

// Is f by another type of e's tag, where both bear trees opened alike?
fn is_other(e: Entry, f: Entry) -> bool
    ensures { IsTrue result ↔ IsOther e.0 f.0 }
{
    e.tag() == f.tag() && e.by() != f.by() && alike(e.ways(), f.ways())
}

// Another type of e's tag, where both bear trees opened alike, by an entry of the row.
fn rival_in(row: &[u32], e: u32) -> Option<TypeNo>
    ensures { RivalMeans row.now e result }
{
    let other = row.iter().find(|f| is_other(Entry(e), Entry(**f)))?;
    Some(Entry(*other).by())
}

// Rival steps from two states, by their rows.
pub(crate) fn rivals_at(left: &[u32], right: &[u32]) -> Option<Rivals>
    ensures { RivalsMean left.now right.now result }
{
    for e in left {
        if let Some(second) = rival_in(right, *e) {
            let first = Entry(*e).by();
            return Some(Rivals { first, second });
        }
    }
    None
}
