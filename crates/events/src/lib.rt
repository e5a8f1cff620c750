// Event files as bytes: the event and the tag at a place, a walker that gives one event after another, and the openings in order with their levels.
#![tactic(auto)]

mod decoder;
mod outline;
mod walker;

pub use decoder::{Event, Kind, tag_at};
pub use outline::{Cursor, next_opening};
pub use walker::Walker;
