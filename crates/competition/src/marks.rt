// One step of the search: the pairs that follow a pair of the queue are marked as reached, and join the queue.
// Which pairs are reached stands beside the queue, not in it: a search goes on with the queue of the one before, and with new marks.
ghost use Rattle.std.specs.Prelude.{◌≡◌, ◌<◌};
ghost use Rattle.sdtd.specs.Limits.{most_states};
ghost use Rattle.competition.specs.Marks.{marks, mark_of, mark_both, mark_with, mark_rows};

use crate::numbers::Numbers;
use crate::queue::{Found, Queue};
use pairs::PAIRS;
use schema::Entry;

// A step from the pair at the place `at` of the queue.
#[derive(Clone, Copy)]
pub(crate) struct Step<'a> {
    pub numbers: Numbers<'a>,
    pub at: u16,
}

impl Step<'_> {
    // The pair joins the queue, unless it is reached already.
    #[tactic(auto, unfolding(crate::specs::Marks::mark_of))]
    fn mark(&self, reached: &mut [bool; PAIRS], queue: &mut Queue, found: Found)
        requires { (found.first < most_states) × (found.second < most_states) }
        ensures { marks reached.new queue.new ≡ mark_of (marks reached.old queue.old) found }
    {
        let n = self.numbers.number(found.first, found.second);
        if reached[n] {
            return;
        }
        if queue.is_full() {
            return;
        }
        reached[n] = true;
        queue.join(found);
    }

    // The pair that the entries e and f of rows lead to, if they are of one type.
    fn mark_both(&self, reached: &mut [bool; PAIRS], queue: &mut Queue, e: Entry, f: Entry)
        ensures { marks reached.new queue.new ≡ mark_both e.0 self.now.at (marks reached.old queue.old) f.0 }
    {
        let by = e.by();
        if f.by() == by {
            let found = Found {
                first: e.to(),
                second: f.to(),
                by,
                parent: self.at,
            };
            self.mark(reached, queue, found);
        }
    }

    // The pairs that e leads to with the entries of the row.
    fn mark_with(&self, reached: &mut [bool; PAIRS], queue: &mut Queue, row: &[u32], e: u32)
        ensures { marks reached.new queue.new ≡ mark_with row.now self.now.at (marks reached.old queue.old) e }
    {
        for f in row {
            self.mark_both(reached, queue, Entry(e), Entry(*f));
        }
    }

    // The pairs that an entry of the left row leads to with one of the right row.
    fn mark_rows(&self, reached: &mut [bool; PAIRS], queue: &mut Queue, left: &[u32], right: &[u32])
        ensures { marks reached.new queue.new ≡ mark_rows left.now right.now self.now.at (marks reached.old queue.old) }
    {
        for e in left {
            self.mark_with(reached, queue, right, *e);
        }
    }

    // The step, by the rows of the pair's two states. Which pairs are reached goes in and comes back.
    fn search_step(
        &self,
        reached: [bool; PAIRS],
        queue: &mut Queue,
        left: &[u32],
        right: &[u32],
    ) -> [bool; PAIRS]
        ensures { marks result queue.new ≡ mark_rows left.now right.now self.now.at (marks reached queue.old) }
    {
        let mut marked = reached;
        self.mark_rows(&mut marked, queue, left, right);
        marked
    }

    // The step, where there is one to make: not where all pairs are reached, nor where a row has no entry.
    pub(crate) fn search_from(
        &self,
        reached: &mut [bool; PAIRS],
        queue: &mut Queue,
        left: &[u32],
        right: &[u32],
    )
        ensures { marks reached.new queue.new ≡ mark_rows left.now right.now self.now.at (marks reached.old queue.old) }
    {
        if queue.is_full() {
            return;
        }
        if left.is_empty() {
            return;
        }
        if right.is_empty() {
            return;
        }
        *reached = self.search_step(*reached, queue, left, right);
    }
}
