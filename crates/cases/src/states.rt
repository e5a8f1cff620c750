// Kind P: the first string is two states; the line has the number of their pair. Kind Q: the first string is a set of states, a state, another set
// and a count; the line has what each call on the set answers, and the two sets that have names.
use crate::case::Case;
use crate::items::padded;
use crate::printer::Printer;
use pairs::pair_number;
use schema::StateSet;
use std::fmt;
use std::fmt::Write;

pub(crate) fn run_pair(out: &mut Printer, case: &Case<'_>) -> fmt::Result {
    let [p, q] = padded::<2>(case.first);
    write!(out, "pair {p} {q}:")?;
    match pair_number(p, q) {
        Some(n) => writeln!(out, " {n}"),
        None => writeln!(out, " outside"),
    }
}

fn word(yes: bool) -> &'static str {
    if yes { "yes" } else { "no" }
}

pub(crate) fn run_set(out: &mut Printer, case: &Case<'_>) -> fmt::Result {
    let [s0, s1, s2, s3, state, o0, o1, o2, o3, count] = padded::<10>(case.first);
    let set = StateSet(u32::from_le_bytes([s0, s1, s2, s3]));
    let other = StateSet(u32::from_le_bytes([o0, o1, o2, o3]));
    let has = word(set.has(state));
    let StateSet(with) = set.with(state);
    let meets = word(set.meets(other));
    let below = word(set.below(count));
    let (StateSet(set), StateSet(other)) = (set, other);
    write!(out, "set {set}: has {state} {has}, with {state} {with}")?;
    write!(out, ", meets {other} {meets}, below {count} {below}")?;
    let (StateSet(none), StateSet(start)) = (StateSet::NONE, StateSet::START);
    writeln!(out, "; none {none}, start {start}")
}
