// What a call or an entry put changed in a reading.
use crate::printer::Printer;
use reading::{LEVELS, Reading};
use std::fmt::Write;
use std::{fmt, mem};

// A reading of zeros, made here.
pub(crate) fn blank() -> Reading {
    Reading {
        depth: 0,
        rooted: false,
        finished: false,
        types: [0; LEVELS],
        sets: [0; LEVELS],
    }
}

// What stands before the next change: a bracket before the first, a comma before each other.
fn mark(shown: &mut bool) -> char {
    if mem::replace(shown, true) { ',' } else { '(' }
}

// The levels' types and sets that changed.
fn show_levels(
    out: &mut Printer,
    shown: &mut bool,
    before: &Reading,
    after: &Reading,
) -> fmt::Result {
    for n in 0..LEVELS {
        let type_no = after.types[n];
        if type_no != before.types[n] {
            let mark = mark(shown);
            write!(out, "{mark}t{n}={type_no}")?;
        }
        let set = after.sets[n];
        if set != before.sets[n] {
            let mark = mark(shown);
            write!(out, "{mark}s{n}={set}")?;
        }
    }
    Ok(())
}

// What the reading after holds and the one before did not: d the depth, r and f for rooted and finished, tN and sN the type and the
// set of the level of index N, open or not.
pub(crate) fn show_changes(out: &mut Printer, before: &Reading, after: &Reading) -> fmt::Result {
    let mut shown = false;
    if after.depth != before.depth {
        let (mark, depth) = (mark(&mut shown), after.depth);
        write!(out, "{mark}d{depth}")?;
    }
    if after.rooted != before.rooted {
        let (mark, rooted) = (mark(&mut shown), u8::from(after.rooted));
        write!(out, "{mark}r{rooted}")?;
    }
    if after.finished != before.finished {
        let (mark, finished) = (mark(&mut shown), u8::from(after.finished));
        write!(out, "{mark}f{finished}")?;
    }
    show_levels(out, &mut shown, before, after)?;
    if shown { write!(out, ")") } else { Ok(()) }
}
