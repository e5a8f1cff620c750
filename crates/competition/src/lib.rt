// Competition in a schema, of roots and of types: the search over pairs of states with its witness, and the verdict on a schema.
#![tactic(auto)]

mod marks;
mod numbers;
mod queue;
mod rivals;
mod roots;
mod search;
mod trimmed;
mod verdict;
mod witness;

pub use search::competition;
pub use verdict::{Judged, judge, judge_reduced};
pub use witness::{LEAST_WITNESS, WORD_PLACE, WitnessHead, witness_head};
