// The schema file's answer: questions 1 to 9 and 21 to 24 in order.
ghost use Rattle.std.specs.Prelude.{◌≡◌};
ghost use Rattle.schema_file.specs.Answer.{FileMeans};
ghost use Rattle.schema_file.specs.Place.{placed};

use commands::{read_commands, type_place};
use competition::{Judged, LEAST_WITNESS, judge_reduced};
use schema::Schema;
use sdtd::{Refusal, Refused};

// A refusal of the file's schema: that of an unused type stands at its TYPE, any other at the first byte.
fn placed(file: &[u8], judged: Judged) -> Refusal
    ensures { result ≡ placed file.now judged }
{
    let place = match judged {
        Judged::Unused(unused) => type_place(file, unused),
        _ => 0,
    };
    judged.why().at(place)
}

// The schema that the file states, or the file's refusal; on 9 the witness goes to the buffer.
pub fn read(file: &[u8], witness: &mut [u8]) -> Result<Schema, Refusal>
    ensures { FileMeans file.now witness.old witness.new result }
{
    if witness.len() < LEAST_WITNESS {
        return Err(Refused::ShortWitness.at(0));
    }
    let schema = read_commands(file)?;
    judge_reduced(&schema, witness).map_err(|judged| placed(file, judged))?;
    Ok(schema)
}
