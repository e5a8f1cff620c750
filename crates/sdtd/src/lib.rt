// Tags and types, numbered separately so that neither number stands for the other; and the refusals of files and calls.
#![tactic(auto)]

ghost use Rattle.std.specs.Prelude.{◌≡◌, ◌++◌, Some, codes, decimal};
ghost use Rattle.sdtd.specs.Answer.{question_number};

use std::fmt;

// A tag's number.
#[derive(Clone, Copy, Debug, PartialEq, Eq)]
pub struct Tag(pub u8);

// A type's number: its place among the schema's blocks.
#[derive(Clone, Copy, Debug, PartialEq, Eq, PartialOrd, Ord)]
pub struct TypeNo(pub u8);

// Why a file or a call is refused: the first question that is answered no.
#[derive(Clone, Copy, Debug, PartialEq, Eq)]
pub enum Refused {
    ShortWitness = 1,
    NoCommand = 2,
    OutOfOrder = 3,
    OutOfRange = 4,
    TooMany = 5,
    Repeated = 6,
    UnknownType = 7,
    NoRoot = 8,
    Competition = 9,
    OutsideLimits = 10,
    Finished = 11,
    UnknownTag = 12,
    CannotOpen = 13,
    TooDeep = 14,
    NoneOpen = 15,
    OtherTag = 16,
    NoWord = 17,
    NotClosed = 18,
    NoEvent = 19,
    NoRoom = 20,
    CannotFollow = 21,
    TooManyUses = 22,
    TooManyBrackets = 23,
    UnusedType = 24,
}

impl Refused {
    // The question's number.
    pub fn number(self) -> u8
        ensures { result ≡ question_number self }
    {
        self as u8
    }

    // The refusal of what stands at this place.
    pub fn at(self, place: usize) -> Refusal
        ensures { result ≡ record { why = self; place = place } }
    {
        Refusal { why: self, place }
    }
}

// A file's refusal: why, and at which of its bytes.
#[derive(Clone, Copy, Debug, PartialEq, Eq)]
pub struct Refusal {
    pub why: Refused,
    pub place: usize,
}

impl fmt::Display for Refusal {
    ghost output = { λ r. Some (codes "refused " ++ decimal (question_number r.why) ++ codes " at " ++ decimal r.place) };

    fn fmt<W: fmt::Write>(&self, f: &mut fmt::Formatter<W>) -> fmt::Result {
        write!(f, "refused {} at {}", self.why.number(), self.place)
    }
}
