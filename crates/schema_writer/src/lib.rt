// The writer of schema files without the types that no valid document uses.
#![tactic(auto)]

mod blocks;
mod content;
mod kept;
mod pieces;
mod put;
mod walk;
mod write;

pub use write::write_reduced;
