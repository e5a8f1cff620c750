// How far a file is read.
ghost use Rattle.std.specs.Prelude.{◌≡◌, cond, eqb};
ghost use Rattle.commands.specs.declared.phase.Phase.TheVariants.{InBlock, InExpression};

// Where the file stands: before TAGS, before the first TYPE, in a block by states, in an expression, after its 3F, after a ROOT, after DONE.
#[derive(Clone, Copy, PartialEq, Eq)]
pub(crate) enum Phase {
    BeforeTags,
    BeforeTypes,
    InBlock,
    InExpression,
    AfterExpression,
    AfterRoot,
    AfterDone,
}

impl Phase {
    // The phase after a TYPE: with state count 0 an expression follows.
    pub(crate) fn of_block(states: u8) -> Phase
        ensures { result ≡ cond (eqb states 0) InExpression InBlock }
    {
        if states == 0 {
            return Phase::InExpression;
        }
        Phase::InBlock
    }
}
