// The trimming that a search goes by.
ghost use Rattle.std.specs.Prelude.{MatchOption};
ghost use Rattle.sdtd.specs.Schema.{WithinLimits};
ghost use Rattle.schema.specs.Rows.{RowsMean};
ghost use Rattle.schema.specs.Trimming.{Exact};
ghost use Rattle.schema.specs.Value.{meaning};

use schema::{BEGINS, STEPS, Schema, Trimming, trim};

// The trimming of a schema inside the limits, with its rows in the lent tables.
pub(crate) fn trimmed(
    schema: &Schema,
    entries: &mut [u32; STEPS],
    begins: &mut [u16; BEGINS],
) -> Option<Trimming>
    ensures { MatchOption result (¬ WithinLimits (meaning schema.now))
        (λ t. WithinLimits (meaning schema.now) × Exact (meaning schema.now) t × RowsMean (meaning schema.now) entries.new begins.new) }
{
    let trimming = trim(schema, entries, begins);
    if trimming.inside {
        Some(trimming)
    } else {
        None
    }
}
