// What the program prints for a schema file and an event file, on slices: everything but the reading and the writing.
#![tactic(auto)]

mod expected_lines;
mod expected_program;
mod lines;
mod openings;
mod program;

pub use expected_program::{EXPECTED_OUTPUT, report_expected};
pub use program::{MOST_EVENTS, MOST_SCHEMA, OUTPUT, report};
