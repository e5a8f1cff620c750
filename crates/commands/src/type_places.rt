// Where the TYPE of a type stands in a file.
ghost use Rattle.std.specs.Prelude.{◌≡◌};
ghost use Rattle.commands.specs.TypePlaces.{place_of_type};

use command::command_at;
use sdtd::TypeNo;

// The place of the TYPE of the type a, or 0 where the file has no such TYPE; whatever the file is.
pub fn type_place(file: &[u8], a: TypeNo) -> usize
    ensures { result ≡ place_of_type file.now a.0 }
{
    let mut left = a.0;
    let mut at = 0;
    while let Some(command) = command_at(file, at) {
        if command.is_type() {
            if left == 0 {
                return at;
            }
            left -= 1;
        }
        at += command.size();
    }
    0
}
