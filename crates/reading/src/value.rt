// A reading: what is kept of the events taken.

// "for each of 64 levels"
pub const LEVELS: usize = 64;

// The first `depth` levels are open. Level n + 1 has its element's type in `types[n]` and its set of live states in `sets[n]`, that of no states
// for a nil element, both as bare numbers, as in a schema's tables. `rooted` says that the root has been opened, `finished` that a finish was taken.
#[repr(C)]
#[derive(Clone, Copy)]
pub struct Reading {
    pub depth: u8,
    pub rooted: bool,
    pub finished: bool,
    pub types: [u8; LEVELS],
    pub sets: [u32; LEVELS],
}
