// A command as it is left.
ghost use Rattle.std.specs.Prelude.{◌≡◌};
ghost use Rattle.command.specs.Command.{file_of};
ghost use Rattle.text.specs.Page.{Lays};
ghost use Rattle.schema_writer.specs.Left.{stays, command_left};
ghost use Rattle.schema_writer.specs.Laying.{kept_by};

use crate::kept::Kept;
use crate::put::put_command;
use command::Command;
use text::Page;

// Does the command stay, where so many TYPEs stand before it?
fn stays(command: Command, types: usize, kept: &Kept) -> bool
    ensures { result ≡ stays (kept_by kept.now.kept) types command }
{
    let own = types.saturating_sub(1);
    match command {
        Command::Tags(_) | Command::Done => true,
        Command::TypeBlock(_, _) => kept.has(types),
        Command::Final(_) | Command::Nil | Command::Expression(_) => kept.has(own),
        Command::Step(_, by, _) => kept.has(own) && kept.has_type(by),
        Command::Root(j) => kept.has_type(j),
    }
}

// Puts the command, if it stays, with new numbers for the types that it names.
pub(crate) fn put_left(page: &mut Page<'_>, command: Command, types: usize, kept: &Kept)
    ensures { Lays page.old (file_of (command_left (kept_by kept.now.kept) types command)) page.new }
{
    if stays(command, types, kept) {
        put_command(page, kept.relabelled(command));
    }
}
