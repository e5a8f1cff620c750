// A schema as a file states it. Nothing here is derived from something else here.

// "1 to 32 tags"
pub const TAGS: u8 = 32;
// "1 to 64 types"
pub const TYPES: usize = 64;
// "ROOT may be given one to eight times"
pub const ROOTS: usize = 8;
// "1 to 32 states"
pub const STATES: u8 = 32;
// "At most 1,024 steps in all."
pub const STEPS: usize = 1024;

// The table entries are bare numbers: a type in `root` and `by`, a tag in `tag`, a set of states in `accepting`, a state in `from` and `to`.
// The first `roots` entries of `root` are the root types, in the file's order. `nillable[a]` says that the type a is nillable.
// The steps stand in the order of their types, `steps[a]` of them for the type a.
// C lends and reads the tables side by side, so what goes over the types or the steps counts their places in all of them.
#[repr(C)]
#[derive(Clone, Copy)]
pub struct Schema {
    pub tags: u8,
    pub types: u8,
    pub roots: u8,
    pub root: [u8; ROOTS],
    pub tag: [u8; TYPES],
    pub states: [u8; TYPES],
    pub accepting: [u32; TYPES],
    pub nillable: [bool; TYPES],
    pub steps: [u16; TYPES],
    pub from: [u8; STEPS],
    pub by: [u8; STEPS],
    pub to: [u8; STEPS],
}

impl Schema {
    // the value of no schema
    pub const NONE: Schema = Schema {
        tags: 0,
        types: 0,
        roots: 0,
        root: [0; ROOTS],
        tag: [0; TYPES],
        states: [0; TYPES],
        accepting: [0; TYPES],
        nillable: [false; TYPES],
        steps: [0; TYPES],
        from: [0; STEPS],
        by: [0; STEPS],
        to: [0; STEPS],
    };
}
