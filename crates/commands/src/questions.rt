// What each command outside an expression is asked, questions 3 to 6.
ghost use Rattle.std.specs.Prelude.{◌≡◌};
ghost use Rattle.sdtd.specs.Answer.{number_told};
ghost use Rattle.commands.specs.Questions.{in_order, in_range, within_counts, not_given, failed};

use crate::builder::{MOST_ROOTS, TYPE_NUMBERS};
use crate::phase::Phase;
use command::Command;
use schema::{STATES, STEPS, StateSet, TAGS};
use sdtd::Refused;

// What is seen of the file where a command is asked: the phase, the numbers of tags, types, roots and steps so far; of the block that the file is
// in, the state count and the accepting states; and whether that block has the command's STEP or NIL already, or the file the command's ROOT.
#[derive(Clone, Copy)]
pub(crate) struct Seen {
    pub phase: Phase,
    pub tags: u8,
    pub types: u8,
    pub roots: u8,
    pub steps: usize,
    pub states: u8,
    pub accepting: StateSet,
    pub given: bool,
}

impl Seen {
    // The questions 3 to 6, in order.
    pub(crate) fn ask(self, command: Command) -> Result<(), Refused>
        ensures { number_told result ≡ failed self command }
    {
        if !self.in_order(command) {
            return Err(Refused::OutOfOrder);
        }
        if !self.in_range(command) {
            return Err(Refused::OutOfRange);
        }
        if !self.within_counts(command) {
            return Err(Refused::TooMany);
        }
        if !self.not_given(command) {
            return Err(Refused::Repeated);
        }
        Ok(())
    }

    // Does it stand in its order?
    fn in_order(self, command: Command) -> bool
        ensures { result ≡ in_order self command }
    {
        match command {
            Command::Tags(_) => matches!(self.phase, Phase::BeforeTags),
            Command::TypeBlock(_, _) => {
                matches!(
                    self.phase,
                    Phase::BeforeTypes | Phase::InBlock | Phase::AfterExpression
                )
            }
            Command::Final(_) | Command::Step(_, _, _) => matches!(self.phase, Phase::InBlock),
            Command::Root(_) => {
                matches!(
                    self.phase,
                    Phase::InBlock | Phase::AfterExpression | Phase::AfterRoot
                )
            }
            Command::Nil => matches!(self.phase, Phase::InBlock | Phase::AfterExpression),
            Command::Done => matches!(self.phase, Phase::AfterRoot),
            Command::Expression(_) => false,
        }
    }

    // Are the operands in range?
    fn in_range(self, command: Command) -> bool
        ensures { result ≡ in_range self command }
    {
        match command {
            Command::Tags(count) => 1 <= count && count <= TAGS,
            Command::TypeBlock(tag, states) => tag.0 < self.tags && states <= STATES,
            Command::Final(state) => state < self.states,
            Command::Step(from, by, to) => {
                from < self.states && by.0 < TYPE_NUMBERS && to < self.states
            }
            Command::Root(root) => root.0 < self.types,
            Command::Nil | Command::Done | Command::Expression(_) => true,
        }
    }

    // Is it within the types, roots and steps that a schema may have?
    fn within_counts(self, command: Command) -> bool
        ensures { result ≡ within_counts self command }
    {
        match command {
            Command::TypeBlock(_, _) => self.types < TYPE_NUMBERS,
            Command::Step(_, _, _) => self.steps < STEPS,
            Command::Root(_) => self.roots < MOST_ROOTS,
            _ => true,
        }
    }

    // Is this FINAL, STEP or NIL not yet given in its block, and this ROOT not yet in the file?
    fn not_given(self, command: Command) -> bool
        ensures { result ≡ not_given self command }
    {
        match command {
            Command::Final(state) => !self.accepting.has(state),
            Command::Step(_, _, _) | Command::Root(_) | Command::Nil => !self.given,
            _ => true,
        }
    }
}
