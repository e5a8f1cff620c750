// The walk over a file's commands that lays what is left of them.
ghost use Rattle.std.specs.Prelude.{◌≡◌, min, length};
ghost use Rattle.std.proofs.lemmas.List.Edits.{sets};
ghost use Rattle.sdtd.specs.Schema.{WithinLimits};
ghost use Rattle.schema.specs.Value.{meaning};
ghost use Rattle.command.specs.Command.{file_of};
ghost use Rattle.text.specs.Page.{most_counted, Lays};
ghost use Rattle.schema_writer.specs.Left.{commands_left};
ghost use Rattle.schema_writer.specs.Laying.{kept_by, KeptBelow};

use crate::blocks::put_block;
use crate::content::past_states;
use crate::kept::Kept;
use crate::pieces::put_left;
use command::command_at;
use schema::Schema;
use sdtd::TypeNo;
use text::Page;

// Puts what is left of the file. `types` counts the TYPEs before the place `at`.
fn put_file(page: &mut Page<'_>, file: &[u8], schema: &Schema, kept: &Kept)
    requires { WithinLimits (meaning schema.now) × KeptBelow kept.now.kept schema.now.types }
    ensures { Lays page.old (file_of (commands_left (kept_by kept.now.kept) (meaning schema.now) file.now)) page.new }
{
    let mut at = 0;
    let mut types = 0;
    while let Some(command) = command_at(file, at) {
        let next = at + command.size();
        if let Some(end) = past_states(file, next, command, types, kept) {
            // A type that is kept is one of the schema's, so its number is a byte; a `try_from` would have a case that never comes.
            put_block(page, schema, TypeNo(types as u8), kept);
            types += 1;
            at = end;
        } else {
            put_left(page, command, types, kept);
            types += usize::from(command.is_type());
            at = next;
        }
    }
}

// How many bytes are left of the file: laid on a page of no bytes.
#[tactic(auto, unfolding(text::specs::Page::laid))]
pub(crate) fn measured(file: &[u8], schema: &Schema, kept: &Kept) -> usize
    requires { WithinLimits (meaning schema.now) × KeptBelow kept.now.kept schema.now.types }
    ensures { result ≡ min
        (length (file_of (commands_left (kept_by kept.now.kept) (meaning schema.now) file.now)))
        most_counted }
{
    let mut nowhere = [0u8; 0];
    let mut page = Page::new(&mut nowhere, 0);
    put_file(&mut page, file, schema, kept);
    page.count()
}

// Lays what is left of the file from the buffer's start on, as far as it fits.
#[tactic(auto, unfolding(text::specs::Page::laid))]
pub(crate) fn lay_file(out: &mut [u8], file: &[u8], schema: &Schema, kept: &Kept)
    requires { WithinLimits (meaning schema.now) × KeptBelow kept.now.kept schema.now.types }
    ensures { out.new ≡ sets out.old 0
        (file_of (commands_left (kept_by kept.now.kept) (meaning schema.now) file.now)) }
{
    let mut page = Page::new(out, 0);
    put_file(&mut page, file, schema, kept);
}
