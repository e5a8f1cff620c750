// The commands of the schema file, questions 2 to 7 and 21 to 23, and the schema that they state.
#![tactic(auto)]

mod builder;
mod commands;
mod laying;
mod phase;
mod questions;
mod type_places;

pub use commands::read_commands;
pub use type_places::type_place;
