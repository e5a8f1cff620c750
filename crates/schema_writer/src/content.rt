// How a type is written: as it is given, or by all its states where its expression names a type that is not kept.
ghost use Rattle.std.specs.Prelude.{◌≡◌, ◌<◌};
ghost use Rattle.sdtd.specs.Limits.{most_states};
ghost use Rattle.expression.specs.Content.{content_at};
ghost use Rattle.commands.specs.Laying.{names_from};
ghost use Rattle.schema_writer.specs.Left.{names_dropped};
ghost use Rattle.schema_writer.specs.Laying.{kept_by, past_content, past_states};

use crate::kept::Kept;
use command::Command;
use expression::{Automaton, read_content};
use sdtd::TypeNo;

// Is one of the types that the uses name not kept?
fn names_dropped(read: &Automaton, kept: &Kept) -> bool
    requires { read.now.uses < most_states }
    ensures { result ≡ names_dropped (kept_by kept.now.kept)
        (names_from read.now.types read.now.places 1 read.now.uses) }
{
    for q in 1..read.uses + 1 {
        if !kept.has_type(TypeNo(read.types[usize::from(q)])) {
            return true;
        }
    }
    false
}

// Where the file goes on after a kept type whose expression begins at a place of the file, if the type is written by its states.
fn past_content(file: &[u8], at: usize, kept: &Kept) -> Option<usize>
    ensures { result ≡ past_content (kept_by kept.now.kept) (content_at file.now at) }
{
    let read = read_content(file, at).ok()?;
    if names_dropped(&read, kept) {
        Some(read.end + 1)
    } else {
        None
    }
}

// Where the file goes on after the type that begins with a command, if it is written by its states. The command ends at the place `next`, and so many
// TYPEs stand before it.
pub(crate) fn past_states(
    file: &[u8],
    next: usize,
    command: Command,
    types: usize,
    kept: &Kept,
) -> Option<usize>
    ensures { result ≡ past_states (kept_by kept.now.kept) file.now next types command }
{
    match command {
        Command::TypeBlock(_, 0) if kept.has(types) => past_content(file, next, kept),
        _ => None,
    }
}
