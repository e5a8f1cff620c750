// Writes the schema file of standard input without the types that no valid document uses to standard output. What is written is decided by
// `write_reduced`; a refused file's number goes to standard error.
#![tactic(auto)]

ghost use Rattle.sdtd.specs.Answer.{question_number};
ghost use Rattle.text.specs.Page.{Lays};
ghost use Rattle.trimschema.specs.Line.{refused_line};

use input::read_full;
use report::MOST_SCHEMA;
use schema::{STATES, STEPS, TYPES};
use schema_writer::write_reduced;
use sdtd::Refused;
use std::io;
use std::io::{Print, Stderr};
use text::Page;

// What blocks that are written by their states can have: a FINAL of two bytes for each state of each type, and every STEP, of four. The cast stands
// since a constant calls no `usize::from`.
const BY_STATES: usize = 2 * TYPES * (STATES as usize) + 4 * STEPS;

// Room for what is written of any file of so many bytes.
const OUTPUT: usize = MOST_SCHEMA + BY_STATES;

// Room for the line of a refusal.
const LINE: usize = 32;

// Puts the line of a refusal.
fn put_refused(page: &mut Page<'_>, why: Refused)
    ensures { Lays page.old (refused_line (question_number why)) page.new }
{
    page.numbered(b"schema refused ", usize::from(why.number()));
    page.end_line();
}

// Tells a refusal on standard error.
fn tell_refused(stderr: Stderr, why: Refused) -> io::Result<()> {
    let mut line = [0u8; LINE];
    let mut page = Page::new(&mut line, 0);
    put_refused(&mut page, why);
    let n = page.held();
    stderr.write_all(&line[..n])
}

fn main(rt: HostRuntime) -> io::Result<()> {
    let mut file = [0u8; MOST_SCHEMA];
    let mut out = [0u8; OUTPUT];
    let n = read_full(&mut rt.stdin(), &mut file);
    match write_reduced(&file[..n], &mut out) {
        Ok(length) => rt.write_all(&out[..length]),
        Err(why) => tell_refused(rt.stderr(), why),
    }
}
