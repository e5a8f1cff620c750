// The verdict on a schema: questions 1, 10, 8, 24 where it is asked, and 9, over one trimming.
ghost use Rattle.std.specs.Prelude.{◌≡◌, ◌≤◌};
ghost use Rattle.sdtd.specs.Limits.{most_types};
ghost use Rattle.sdtd.specs.Answer.{verdict_at};
ghost use Rattle.schema.specs.Value.{meaning};
ghost use Rattle.competition.specs.Search.{questions_of, JudgedBy, JudgeMeans, ReducedMeans, why_of, judged_of};
ghost use Rattle.competition.specs.Unused.{FirstUnmarked};

use crate::roots::{opening_types, some_opens};
use crate::search::competes;
use crate::trimmed::trimmed;
use crate::witness::LEAST_WITNESS;
use schema::{BEGINS, Rows, STEPS, Schema, TYPES, used_in};
use sdtd::{Refused, TypeNo};

// Why a schema is refused; of a type that no valid document uses, the first.
#[derive(Clone, Copy, Debug, PartialEq, Eq)]
pub enum Judged {
    ShortBuffer,
    Outside,
    NoRootBears,
    Unused(TypeNo),
    Competes,
}

impl Judged {
    // The question that is answered no.
    pub fn why(self) -> Refused
        ensures { result ≡ why_of self }
    {
        match self {
            Judged::ShortBuffer => Refused::ShortWitness,
            Judged::Outside => Refused::OutsideLimits,
            Judged::NoRootBears => Refused::NoRoot,
            Judged::Unused(_) => Refused::UnusedType,
            Judged::Competes => Refused::Competition,
        }
    }
}

// Of the first n types the first that is not used.
fn first_unused(used: &[bool; TYPES], n: usize) -> Option<usize>
    requires { n ≤ most_types }
    ensures { FirstUnmarked used.now n result }
{
    used[..n].iter().position(|used| !used)
}

// The verdict, where of the first n types it is asked whether they are used.
fn judge_types(schema: &Schema, n: usize, witness: &mut [u8]) -> Result<(), Judged>
    requires { n ≤ schema.now.types }
    ensures { JudgedBy (questions_of (meaning schema.now) witness.old n) (meaning schema.now)
        witness.old witness.new (judged_of result) }
{
    if witness.len() < LEAST_WITNESS {
        return Err(Judged::ShortBuffer);
    }
    let mut entries = [0u32; STEPS];
    let mut begins = [0u16; BEGINS];
    let Some(trimming) = trimmed(schema, &mut entries, &mut begins) else {
        return Err(Judged::Outside);
    };
    let opening = opening_types(schema, &trimming);
    if !some_opens(&opening) {
        return Err(Judged::NoRootBears);
    }
    let used = used_in(trimming);
    if let Some(unused) = first_unused(&used, n) {
        // A type is below 256; a `try_from` would have a case that never comes.
        return Err(Judged::Unused(TypeNo(unused as u8)));
    }
    let rows = Rows {
        entries: &entries,
        begins: &begins,
    };
    if competes(schema, &trimming, &opening, &rows, witness) {
        return Err(Judged::Competes);
    }
    Ok(())
}

// The verdict on a schema: does a root type bear a tree, and is there no competition?
pub fn judge(schema: &Schema, witness: &mut [u8]) -> Result<(), Refused>
    ensures { JudgeMeans (meaning schema.now) witness.old witness.new (verdict_at 0 result) }
{
    judge_types(schema, 0, witness).map_err(|judged| judged.why())
}

// The same, and after the roots: does a valid document use each type?
pub fn judge_reduced(schema: &Schema, witness: &mut [u8]) -> Result<(), Judged>
    ensures { ReducedMeans (meaning schema.now) witness.old witness.new (judged_of result) }
{
    let types = usize::from(schema.types);
    judge_types(schema, types, witness)
}
