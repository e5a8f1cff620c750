// The schema file: questions 1 to 9 and 21 to 24, and the schema that it states.
#![tactic(auto)]

mod file;

pub use file::read;
