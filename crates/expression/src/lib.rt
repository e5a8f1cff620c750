// Content written as an expression: its parsers, and the automaton that it becomes.
#![tactic(auto)]

mod content;
mod parsed;
mod parsers;
mod parts;
mod tables;

pub use content::{Automaton, read_content};
pub use tables::STATE_NUMBERS;
