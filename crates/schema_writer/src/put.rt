// The bytes of commands on a page.
ghost use Rattle.command.specs.Command.{bytes_of, part_bytes};
ghost use Rattle.text.specs.Page.{Lays};

use command::{Command, Part};
use text::Page;

// Puts the bytes of a command of an expression.
fn put_part(page: &mut Page<'_>, part: Part)
    ensures { Lays page.old (part_bytes part) page.new }
{
    match part {
        Part::OpenBracket => page.bytes(&[0x30]),
        Part::CloseBracket => page.bytes(&[0x31]),
        Part::Use(j) => page.bytes(&[0x32, j.0]),
        Part::Or => page.bytes(&[0x33]),
        Part::Repeat => page.bytes(&[0x34]),
        Part::End => page.bytes(&[0x3f]),
    }
}

// Puts the bytes of a command.
pub(crate) fn put_command(page: &mut Page<'_>, command: Command)
    ensures { Lays page.old (bytes_of command) page.new }
{
    match command {
        Command::Tags(n) => page.bytes(&[0x10, n]),
        Command::TypeBlock(g, s) => page.bytes(&[0x11, g.0, s]),
        Command::Final(q) => page.bytes(&[0x12, q]),
        Command::Step(p, j, q) => page.bytes(&[0x13, p, j.0, q]),
        Command::Root(j) => page.bytes(&[0x14, j.0]),
        Command::Nil => page.bytes(&[0x15]),
        Command::Done => page.bytes(&[0x1f]),
        Command::Expression(part) => put_part(page, part),
    }
}
