// Kind J: a whole job of the program `typestock`; kind X: one of the program `whatnext`. The first string is the schema file, the second the events;
// what the program prints comes as it is, and then a line `--`.
use crate::case::Case;
use crate::printer::Printer;
use report::{EXPECTED_OUTPUT, OUTPUT, report, report_expected};
use std::fmt;
use std::fmt::Write;

fn show_job(out: &mut Printer, printed: &[u8]) -> fmt::Result {
    out.put(printed);
    writeln!(out, "--")
}

pub(crate) fn run(out: &mut Printer, case: &Case<'_>) -> fmt::Result {
    let mut lent = [0; OUTPUT];
    let n = report(case.first, case.second, &mut lent);
    show_job(out, &lent[..n])
}

pub(crate) fn run_expected(out: &mut Printer, case: &Case<'_>) -> fmt::Result {
    let mut lent = [0; EXPECTED_OUTPUT];
    let n = report_expected(case.first, case.second, &mut lent);
    show_job(out, &lent[..n])
}
