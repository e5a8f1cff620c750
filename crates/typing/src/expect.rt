// The whole job of what would have been taken: a schema file, and under an accepted one where and why an event file is refused.
ghost use Rattle.typing.specs.ExpectedJob.{ExpectedJobMeans};

use expected::{Expected, expect_next};
use schema_file::read;
use sdtd::Refusal;

// The schema file's refusal, or under an accepted one what would have been taken where the event file is refused. On 9 the witness goes to its buffer.
pub fn expect_document(file: &[u8], events: &[u8], witness: &mut [u8]) -> Result<Expected, Refusal>
    ensures { ExpectedJobMeans file.now events.now witness.old witness.new result }
{
    let schema = read(file, witness)?;
    Ok(expect_next(&schema, events))
}
