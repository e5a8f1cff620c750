// Kind E: the first string is a schema file, the second an event file, and the buffer takes the types. Beside a refused schema file stands the
// value of no schema. The line has the schema file's answer; the event file's number and place; the count of openings taken and as many bytes of
// the buffer; and whether its other bytes are as they were.
use crate::buffer::show_kept;
use crate::case::Case;
use crate::printer::Printer;
use crate::schema_files::read_schema;
use crate::show::{show_numbers, show_verdict};
use reading::{EventFile, read_events};
use schema::Schema;
use std::fmt;
use std::fmt::Write;

pub(crate) fn run(out: &mut Printer, case: &Case<'_>, lent: &mut [u8]) -> fmt::Result {
    let read = read_schema(case.first);
    let schema = read.unwrap_or(Schema::NONE);
    let EventFile {
        number,
        place,
        count,
    } = read_events(&schema, case.second, lent);
    show_verdict(out, read.err())?;
    write!(out, " | {number} at {place} | {count}")?;
    show_numbers(out, &lent[..count.min(lent.len())])?;
    show_kept(out, lent, count)?;
    writeln!(out)
}
