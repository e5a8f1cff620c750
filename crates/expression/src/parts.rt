// The commands of an expression, as the parsers ask about them. They look at the bytes themselves: by `command_at` the parsers run 1.3 to 2.4
// times as many instructions.
ghost use Rattle.std.specs.Prelude.{◌≡◌, true};
ghost use Rattle.command.specs.Command.{command_at};
ghost use Rattle.expression.specs.Parsing.{Opens, dividing, repeating, Ends};

use command::{Command, Part, command_at};
use sdtd::{Refusal, Refused, TypeNo};

// What a factor begins with: a 32 with its type, or a 30.
#[derive(Clone, Copy)]
pub(crate) enum Factor {
    OneType(TypeNo),
    Bracket,
}

// What the command at a place begins, if it begins a factor.
#[tactic(auto, unfolding(command::specs::Command::command_of, command::specs::Command::added_command))]
pub(crate) fn opens(file: &[u8], at: usize) -> Option<Factor>
    ensures { Opens (command_at file.now at) result }
{
    match file.get(at..)? {
        [0x32, j, ..] => Some(Factor::OneType(TypeNo(*j))),
        [0x30, ..] => Some(Factor::Bracket),
        _ => None,
    }
}

// Is the command at a place 33?
#[tactic(auto, unfolding(command::specs::Command::command_of, command::specs::Command::added_command))]
pub(crate) fn divides(file: &[u8], at: usize) -> bool
    ensures { result ≡ dividing (command_at file.now at) }
{
    matches!(file.get(at), Some(0x33))
}

// Is it 34?
#[tactic(auto, unfolding(command::specs::Command::command_of, command::specs::Command::added_command))]
pub(crate) fn repeats(file: &[u8], at: usize) -> bool
    ensures { result ≡ repeating (command_at file.now at) }
{
    matches!(file.get(at), Some(0x34))
}

// May the command at a place stand where a choice ends? The 31 does inside a bracket, the 3F outside; any other of an expression gets 21.
pub(crate) fn ends(file: &[u8], at: usize, inside: bool) -> Result<(), Refusal>
    ensures { Ends inside (command_at file.now at) at result }
{
    match command_at(file, at) {
        Some(Command::Expression(Part::CloseBracket)) if inside => Ok(()),
        Some(Command::Expression(Part::End)) if !inside => Ok(()),
        Some(Command::Expression(_)) => Err(Refused::CannotFollow.at(at)),
        Some(_) => Err(Refused::OutOfOrder.at(at)),
        None => Err(Refused::NoCommand.at(at)),
    }
}

// The same in a bracket. The 31 is asked for first: it mostly stands there.
#[tactic(auto, unfolding(command::specs::Command::command_of, command::specs::Command::added_command))]
pub(crate) fn ends_bracket(file: &[u8], at: usize) -> Result<(), Refusal>
    ensures { Ends true (command_at file.now at) at result }
{
    if matches!(file.get(at), Some(0x31)) {
        return Ok(());
    }
    ends(file, at, true)
}
