// The table of kept types, and the new numbers of types.
ghost use Rattle.std.specs.Prelude.{◌≡◌};
ghost use Rattle.sdtd.specs.Numbered.{type_no};
ghost use Rattle.sdtd.specs.Reduced.{new_number};
ghost use Rattle.command.specs.Relabelled.{relabel_part, relabel_command};
ghost use Rattle.schema_writer.specs.Laying.{kept_by, NewNumbers};

use command::{Command, Part};
use schema::TYPES;
use sdtd::TypeNo;

// A new number for each type, and how many types are kept.
const NUMBERS: usize = TYPES + 1;

// Which types are kept, with the number that each type gets: how many kept types stand before it.
#[derive(Clone, Copy)]
pub(crate) struct Kept {
    kept: [bool; TYPES],
    numbers: [u8; NUMBERS],
    ghost says: { NewNumbers kept numbers },
}

// The table of new numbers.
fn new_numbers(kept: &[bool; TYPES]) -> [u8; NUMBERS]
    ensures { NewNumbers kept.now result }
{
    let mut numbers = [0u8; NUMBERS];
    let mut n = 0u8;
    // By index: at each place a flag is read and a number is written, of tables of different length.
    for a in 0..TYPES {
        numbers[a] = n;
        n += u8::from(kept[a]);
    }
    numbers[TYPES] = n;
    numbers
}

impl Kept {
    pub(crate) fn new(kept: [bool; TYPES]) -> Kept
        ensures { result.kept ≡ kept }
    {
        let numbers = new_numbers(&kept);
        Kept { kept, numbers }
    }

    // Is the type kept? No number past the table is a type.
    pub(crate) fn has(&self, a: usize) -> bool
        ensures { result ≡ kept_by self.now.kept a }
    {
        a < TYPES && self.kept[a]
    }

    pub(crate) fn has_type(&self, j: TypeNo) -> bool
        ensures { result ≡ kept_by self.now.kept j.0 }
    {
        self.has(usize::from(j.0))
    }

    // The new number of a type.
    fn new_number(&self, j: TypeNo) -> TypeNo
        ensures { result ≡ type_no (new_number (kept_by self.now.kept) j.0) }
    {
        TypeNo(self.numbers[usize::from(j.0).min(TYPES)])
    }

    // A command of an expression with the new number of the type that it names.
    fn relabelled_part(&self, part: Part) -> Part
        ensures { result ≡ relabel_part (new_number (kept_by self.now.kept)) part }
    {
        match part {
            Part::Use(j) => Part::Use(self.new_number(j)),
            _ => part,
        }
    }

    // A command with the new number of the type that it names.
    pub(crate) fn relabelled(&self, command: Command) -> Command
        ensures { result ≡ relabel_command (new_number (kept_by self.now.kept)) command }
    {
        match command {
            Command::Step(p, j, q) => Command::Step(p, self.new_number(j), q),
            Command::Root(j) => Command::Root(self.new_number(j)),
            Command::Expression(part) => Command::Expression(self.relabelled_part(part)),
            _ => command,
        }
    }
}
