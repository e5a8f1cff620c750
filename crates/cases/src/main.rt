// Runs the engine's calls on the cases of standard input and writes what they answer.
//
// What a case is stands at `case`, and what the strings of a kind are and what it writes at its module.
#![tactic(auto)]

mod buffer;
mod call_lists;
mod case;
mod changes;
mod event_files;
mod expected_files;
mod items;
mod jobs;
mod made_up;
mod printer;
mod schema_files;
mod schema_values;
mod show;
mod states;
mod written_files;

use crate::buffer::fill;
use crate::case::{Case, Kind, LONGEST, Stop, next_case};
use crate::printer::Printer;
use std::fmt;
use std::fmt::Write;
use std::io::Stdin;

// Writes what the call of this kind answers.
fn answer(out: &mut Printer, case: &Case<'_>, lent: &mut [u8]) -> fmt::Result {
    fill(lent);
    match case.kind {
        Kind::SchemaFile => schema_files::run(out, case, lent),
        Kind::WrittenFile => written_files::run(out, case, lent),
        Kind::SchemaValue => schema_values::run(out, case, lent),
        Kind::Calls => call_lists::run(out, case),
        Kind::EventFile => event_files::run(out, case, lent),
        Kind::Job => jobs::run(out, case),
        Kind::ExpectedFile => expected_files::run(out, case),
        Kind::ExpectedJob => jobs::run_expected(out, case),
        Kind::Pair => states::run_pair(out, case),
        Kind::Set => states::run_set(out, case),
    }
}

// The most cases: what follows so many is not looked at.
const CASES: u32 = 0x2_0000;

// Answers each case before it reads the next, and writes what ends them.
fn run(stdin: &mut Stdin, out: &mut Printer) -> fmt::Result {
    let mut first = [0; LONGEST];
    let mut second = [0; LONGEST];
    let mut lent = [0; LONGEST];
    for _ in 0..CASES {
        match next_case(stdin, &mut first, &mut second) {
            Ok(case) => answer(out, &case, &mut lent[..usize::from(case.room)])?,
            Err(Stop::End) => return writeln!(out, "end"),
            Err(Stop::NoCase) => return writeln!(out, "no case"),
        }
        out.flush();
    }
    Ok(())
}

fn main(rt: HostRuntime) {
    let mut out = Printer::new(rt.stdout());
    // a printer never fails
    let _ = run(&mut rt.stdin(), &mut out);
    out.flush();
}
