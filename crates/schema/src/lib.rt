// Schemas as values: the state set, the schema, its limits, its trimming, and its steps in rows.
#![tactic(auto)]

mod accepted;
mod entry;
mod limits;
mod reach;
mod roots;
mod row;
mod rows;
mod span;
mod spread;
mod state_set;
mod steps;
mod tables;
mod used;
mod value;
mod ways;

pub use entry::{Entry, TYPE_PLACE, TYPE_ROOM};
pub use limits::within;
pub use roots::root_types;
pub use row::Rows;
pub use rows::{BEGINS, ROWS};
pub use span::Span;
pub use state_set::{StateSet, States};
pub use steps::{Step, Steps};
pub use tables::{LiveStates, Trimming, live, live_rows, trim};
pub use used::{used_in, used_types};
pub use value::{ROOTS, STATES, STEPS, Schema, TAGS, TYPES};
pub use ways::{WAYS, opens, opens_as_nil, opens_plainly};
