// Unordered pairs of states and their numbers, from a table.
#![tactic(auto)]

mod limits;
mod numbers;
mod table;

pub use limits::{ORDERED_PAIRS, PAIRS};
pub use numbers::{number_in, pair_number, pair_numbers};
pub use table::PAIR_NUMBERS;
