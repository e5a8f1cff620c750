// Readings: one event after another, by value or lent; and the event file's answer.
#![tactic(auto)]

mod calls;
mod coming;
mod event_file;
mod heads;
mod lent;
mod levels;
mod own_steps;
mod sought;
mod steps;
mod stop;
mod tables;
mod value;

pub use calls::Next;
pub use event_file::{EventFile, read_events};
pub use lent::{close_lent, finish_lent, open_lent, open_nil_lent};
pub use stop::{Stop, TAG_NUMBERS, pass_events};
pub use value::{LEVELS, Reading};
