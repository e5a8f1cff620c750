// The whole job: a schema file, and under an accepted one an event file.
ghost use Rattle.typing.specs.Job.{JobMeans};

use reading::{EventFile, read_events};
use schema_file::read;
use sdtd::Refusal;

// The schema file's refusal, or under an accepted one the event file's answer. On 9 the witness goes to its buffer, types go to theirs.
pub fn type_document(
    file: &[u8],
    events: &[u8],
    witness: &mut [u8],
    types: &mut [u8],
) -> Result<EventFile, Refusal>
    ensures { JobMeans file.now events.now witness.old witness.new
        types.old types.new result }
{
    let schema = read(file, witness)?;
    Ok(read_events(&schema, events, types))
}
