// The call: a file that passed is written without the types that no valid document uses.
ghost use Rattle.std.specs.Prelude.{◌≡◌, ◌↔◌, [], ◌∷◌, ◌++◌, ◌≤◌, T, All, length, drop};
ghost use Rattle.sdtd.specs.Answer.{Ordered};
ghost use Rattle.sdtd.specs.Output.{writes, written_of};
ghost use Rattle.schema.specs.Value.{meaning};
ghost use Rattle.commands.specs.File.{StatesSchema};
ghost use Rattle.schema_writer.specs.Answer.{room_asked, Writes, WriteMeans};

use crate::kept::Kept;
use crate::walk::{lay_file, measured};
use commands::read_commands;
use competition::{LEAST_WITNESS, judge};
use schema::{Schema, used_types};
use sdtd::Refused;

// Is each of the types kept?
fn all_kept(kept: &[bool]) -> bool
    ensures { T result ↔ All T kept.now }
{
    kept.iter().all(|is_kept| *is_kept)
}

// Copies the file to the buffer's start. Byte by byte: a slice's own copy would be a call of `memmove`, and C's header says that the library calls
// `memcpy` and `memset` alone.
fn copy_file(out: &mut [u8], file: &[u8])
    requires { length file.now ≤ length out.old }
    ensures { out.new ≡ file.now ++ drop (length file.now) out.old }
{
    let mut i = 0;
    while i < file.len() {
        out[i] = file[i];
        i += 1;
    }
}

// Writes the file as it is, where it fits.
fn write_same(file: &[u8], out: &mut [u8]) -> Result<usize, Refused>
    ensures { Ordered (room_asked out.old file.now ∷ []) (λ x. x ≡ writes out.old file.now)
        (record { answer = written_of result; buffer = out.new }) }
{
    if out.len() < file.len() {
        return Err(Refused::NoRoom);
    }
    copy_file(out, file);
    Ok(file.len())
}

// Writes what is left of a file that states the schema: the file itself where each type is kept; else it is measured over a buffer of no bytes, and
// written where it fits.
fn write_left(file: &[u8], schema: &Schema, out: &mut [u8]) -> Result<usize, Refused>
    requires { StatesSchema file.now (meaning schema.now) }
    ensures { Writes file.now (meaning schema.now) out.old (record { answer = written_of result; buffer = out.new }) }
{
    let used = used_types(schema);
    if all_kept(&used[..usize::from(schema.types)]) {
        return write_same(file, out);
    }
    let kept = Kept::new(used);
    let length = measured(file, schema, &kept);
    if out.len() < length {
        return Err(Refused::NoRoom);
    }
    lay_file(out, file, schema, &kept);
    Ok(length)
}

// Questions 2 to 9 and 21 to 23 of the file, then whether the output has room for what is left of it.
pub fn write_reduced(file: &[u8], out: &mut [u8]) -> Result<usize, Refused>
    ensures { WriteMeans file.now out.old out.new (written_of result) }
{
    let schema = read_commands(file).map_err(|refusal| refusal.why)?;
    let mut witness = [0u8; LEAST_WITNESS];
    judge(&schema, &mut witness)?;
    write_left(file, &schema, out)
}
