// How many pairs of states there are.
use schema::STATES;

// The unordered pairs have the numbers "0 to 527".
// The casts in this file stand since a constant calls no `usize::from`.
pub const PAIRS: usize = STATES as usize * (STATES as usize + 1) / 2;

// "1,024 numbers, one for each ordered pair of states"
pub const ORDERED_PAIRS: usize = STATES as usize * STATES as usize;
