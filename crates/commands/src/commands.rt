// The commands of a file, one after another, and the schema that they state.
ghost use Rattle.commands.specs.File.{commands};
ghost use Rattle.commands.specs.Answer.{CommandsBy};

use crate::builder::Builder;
use crate::phase::Phase;
use command::command_at;
use expression::read_content;
use schema::Schema;
use sdtd::{Refusal, Refused};

// Questions 2 to 7 and 21 to 23 of a file: each command in order, up to DONE and the end of the file; then the types that are named.
pub fn read_commands(file: &[u8]) -> Result<Schema, Refusal>
    ensures { CommandsBy (commands file.now) result }
{
    let mut built = Builder::new(file.len());
    let mut at = 0;
    // A command is as long as it is, so that no iterator over the file gives the place after an expression.
    while built.phase != Phase::AfterDone {
        if built.phase == Phase::InExpression {
            let read = read_content(file, at)?;
            built.add_expression(&read)?;
            at = read.end + 1;
        } else {
            let command = command_at(file, at).ok_or(Refused::NoCommand.at(at))?;
            built.ask(command).map_err(|why| why.at(at))?;
            built.add(command, at);
            at += command.size();
        }
    }
    if at < file.len() {
        return Err(Refused::OutOfOrder.at(at));
    }
    match built.unknown(file.len()) {
        Some(place) => Err(Refused::UnknownType.at(place)),
        None => Ok(built.schema),
    }
}
