// The front: a whole job on lent bytes, from a schema file and an event file to types. The demands, stated
// over the promises of the calls, are in `specs/Demands.antt` and proved by citation in `proofs/DemandsMet.antt`.
#![tactic(auto)]

mod expect;
mod job;

pub use expect::expect_document;
pub use job::type_document;
