// The commands of the schema file, as bytes.
#![tactic(auto)]

ghost use Rattle.std.specs.Prelude.{◌≡◌};
ghost use Rattle.command.specs.Cases.{is_type};
ghost use Rattle.command.specs.Command.{command_at, part_size, size};

use sdtd::{Tag, TypeNo};

// A command of an expression: 30 and 31 around a choice, 32 with a type, 33 between sequences, 34 after what it repeats, 3F at the end.
#[derive(Clone, Copy, Debug, PartialEq, Eq)]
pub enum Part {
    OpenBracket,
    CloseBracket,
    Use(TypeNo),
    Or,
    Repeat,
    End,
}

impl Part {
    // How many bytes it has.
    fn size(self) -> usize
        ensures { result ≡ part_size self }
    {
        match self {
            Part::OpenBracket | Part::CloseBracket | Part::Or | Part::Repeat | Part::End => 1,
            Part::Use(_) => 2,
        }
    }
}

// A command with its operands.
#[derive(Clone, Copy, Debug, PartialEq, Eq)]
pub enum Command {
    Tags(u8),
    TypeBlock(Tag, u8),
    Final(u8),
    Step(u8, TypeNo, u8),
    Root(TypeNo),
    Nil,
    Done,
    Expression(Part),
}

impl Command {
    // How many bytes it has.
    pub fn size(self) -> usize
        ensures { result ≡ size self }
    {
        match self {
            Command::Nil | Command::Done => 1,
            Command::Tags(_) | Command::Final(_) | Command::Root(_) => 2,
            Command::TypeBlock(_, _) => 3,
            Command::Step(_, _, _) => 4,
            Command::Expression(part) => part.size(),
        }
    }

    // Is it a TYPE?
    pub fn is_type(self) -> bool
        ensures { result ≡ is_type self }
    {
        matches!(self, Command::TypeBlock(_, _))
    }
}

// The command at a place of the file, if one begins there and its operands stand inside the file. The code is asked before the operands, and
// the function stands inline, as its callers match on the command at once: else it takes twice the instructions.
#[inline(always)]
#[tactic(auto, unfolding(crate::specs::Command::command_of, crate::specs::Command::added_command))]
pub fn command_at(file: &[u8], at: usize) -> Option<Command>
    ensures { result ≡ command_at file.now at }
{
    let (code, operands) = file.get(at..)?.split_first()?;
    match (*code, operands) {
        (0x10, [count, ..]) => Some(Command::Tags(*count)),
        (0x11, [tag, states, ..]) => Some(Command::TypeBlock(Tag(*tag), *states)),
        (0x12, [state, ..]) => Some(Command::Final(*state)),
        (0x13, [from, by, to, ..]) => Some(Command::Step(*from, TypeNo(*by), *to)),
        (0x14, [root, ..]) => Some(Command::Root(TypeNo(*root))),
        (0x15, _) => Some(Command::Nil),
        (0x1f, _) => Some(Command::Done),
        (0x30, _) => Some(Command::Expression(Part::OpenBracket)),
        (0x31, _) => Some(Command::Expression(Part::CloseBracket)),
        (0x32, [used, ..]) => Some(Command::Expression(Part::Use(TypeNo(*used)))),
        (0x33, _) => Some(Command::Expression(Part::Or)),
        (0x34, _) => Some(Command::Expression(Part::Repeat)),
        (0x3f, _) => Some(Command::Expression(Part::End)),
        _ => None,
    }
}
