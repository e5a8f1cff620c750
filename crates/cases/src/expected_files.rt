// Kind N: what would have been taken. The first string is a schema file; the second has items that put entries of the schema value (see
// `made_up`), as many bytes as the buffer is long, and after them an event file. The line has the schema file's answer; the event file's number and
// place, with no types' buffer; the types of the open elements; the openings listed, `o` or, as nil, `n` before the tag; `close` and `finish` where
// they would have been taken; and 0 where every entry past the counts is 0.
use crate::case::Case;
use crate::made_up::made_up;
use crate::printer::Printer;
use crate::schema_files::read_schema;
use crate::show::{show_numbers, show_verdict};
use expected::{Expected, expect_next};
use schema::Schema;
use std::fmt;
use std::fmt::Write;

// The types of the open elements; false where an entry past them is not 0.
fn show_types(out: &mut Printer, e: &Expected) -> Result<bool, fmt::Error> {
    for type_no in e.types.iter().take(e.depth) {
        write!(out, " {type_no}")?;
    }
    Ok(e.types.iter().skip(e.depth).all(|type_no| *type_no == 0))
}

// The openings that are listed; false where an entry past them is not 0.
fn show_openings(out: &mut Printer, e: &Expected) -> Result<bool, fmt::Error> {
    for (tag, nil) in e.tags.iter().zip(&e.nils).take(e.count) {
        let kind = if *nil { "n" } else { "o" };
        write!(out, " {kind}{tag}")?;
    }
    let tags = e.tags.iter().skip(e.count).all(|tag| *tag == 0);
    Ok(tags && e.nils.iter().skip(e.count).all(|nil| !*nil))
}

fn show_expected(out: &mut Printer, e: &Expected) -> fmt::Result {
    let (number, place) = (e.number, e.place);
    write!(out, " | {number} at {place} |")?;
    let types = show_types(out, e)?;
    write!(out, " |")?;
    let openings = show_openings(out, e)?;
    let close = if e.closes { " close" } else { "" };
    let finish = if e.finishes { " finish" } else { "" };
    let rest = if types && openings { "0" } else { "not 0" };
    writeln!(out, " |{close}{finish} | {rest}")
}

pub(crate) fn run(out: &mut Printer, case: &Case<'_>) -> fmt::Result {
    let read = read_schema(case.first);
    let (puts, events) = case
        .second
        .split_at(usize::from(case.room).min(case.second.len()));
    let schema = made_up(read.unwrap_or(Schema::NONE), puts);
    show_verdict(out, read.err())?;
    show_expected(out, &expect_next(&schema, events))
}
