// The queue of the search: the pairs found so far, each with the type by which it was found and the place of the pair that it was found from.
ghost use Rattle.std.specs.Prelude.{◌≡◌, ◌↔◌, ◌≤◌, ◌<◌, IsTrue};
ghost use Rattle.sdtd.specs.Limits.{most_pairs};
ghost use Rattle.competition.specs.Found.{joined, started};

use pairs::PAIRS;
use sdtd::TypeNo;

// A pair of states; the type that led to it, from the pair at the place `parent` of the queue.
#[derive(Clone, Copy)]
pub(crate) struct Found {
    pub first: u8,
    pub second: u8,
    pub by: TypeNo,
    pub parent: u16,
}

// The pair of start states, found from nothing.
const START: Found = Found {
    first: 0,
    second: 0,
    by: TypeNo(0),
    parent: 0,
};

#[derive(Clone, Copy)]
pub(crate) struct Queue {
    pub found: [Found; PAIRS],
    pub count: usize,
}

impl Queue {
    // Only the pair of start states.
    pub(crate) fn new() -> Queue
        ensures { result.count ≡ 1 }
    {
        Queue {
            found: [START; PAIRS],
            count: 1,
        }
    }

    // Only the pair of start states again; what stands past it says nothing.
    pub(crate) fn restart(&mut self)
        ensures { self.new ≡ started self.old }
    {
        self.found[0] = START;
        self.count = 1;
    }

    // It never is in a search before a pair joins: there are only so many pairs, and each joins once.
    pub(crate) fn is_full(&self) -> bool
        ensures { IsTrue result ↔ (most_pairs ≤ self.now.count) }
    {
        PAIRS <= self.count
    }

    pub(crate) fn join(&mut self, found: Found)
        requires { self.old.count < most_pairs }
        ensures { self.new ≡ joined self.old found }
    {
        self.found[self.count] = found;
        self.count += 1;
    }
}
