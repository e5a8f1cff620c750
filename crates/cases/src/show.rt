// Answers and numbers, as the cases' lines show them.
use crate::printer::Printer;
use sdtd::Refusal;
use std::fmt;
use std::fmt::Write;

// Each number after a blank.
pub(crate) fn show_numbers(out: &mut Printer, numbers: &[u8]) -> fmt::Result {
    for n in numbers {
        write!(out, " {n}")?;
    }
    Ok(())
}

// The refusal, or that there is none.
pub(crate) fn show_verdict(out: &mut Printer, refusal: Option<Refusal>) -> fmt::Result {
    match refusal {
        None => write!(out, "accepted"),
        Some(refusal) => write!(out, "{refusal}"),
    }
}
