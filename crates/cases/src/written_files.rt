// Kind W: the first string is a schema file, and the buffer takes that file without the types that no valid document uses. The line has the refusal's
// number, 0 where the file is written; its length and as many bytes of the buffer; and whether its other bytes are as they were.
use crate::buffer::show_kept;
use crate::case::Case;
use crate::printer::Printer;
use crate::show::show_numbers;
use schema_writer::write_reduced;
use std::fmt;
use std::fmt::Write;

pub(crate) fn run(out: &mut Printer, case: &Case<'_>, lent: &mut [u8]) -> fmt::Result {
    let (number, length) = match write_reduced(case.first, lent) {
        Ok(length) => (0, length),
        Err(why) => (why.number(), 0),
    };
    write!(out, "{number} | {length}")?;
    show_numbers(out, &lent[..length.min(lent.len())])?;
    show_kept(out, lent, length)?;
    writeln!(out)
}
