// Kind S: the first string is a schema file, and the buffer takes the witness. The line has the answer; the schema value beside it, with its
// counts, its roots, for each type its tag, states, accepting states and number of steps and `nil` if it is nillable, and each step, and `rest 0`
// where every other entry is 0; and the buffer.
use crate::buffer::show_witness;
use crate::case::Case;
use crate::printer::Printer;
use crate::show::show_verdict;
use competition::LEAST_WITNESS;
use schema::{Schema, TYPES};
use schema_file::read;
use sdtd::Refusal;
use std::fmt;
use std::fmt::Write;

// The schema file's answer, with a witness buffer of its own.
pub(crate) fn read_schema(file: &[u8]) -> Result<Schema, Refusal> {
    read(file, &mut [0; LEAST_WITNESS])
}

// The roots, or the first entry where there is none; false where an entry past them is not 0, or there are types and no root or roots and no type.
fn show_roots(out: &mut Printer, schema: &Schema) -> Result<bool, fmt::Error> {
    let roots = usize::from(schema.roots);
    for a in schema.root.iter().take(roots.max(1)) {
        write!(out, " {a}")?;
    }
    let rest = schema.root.iter().skip(roots).all(|a| *a == 0);
    Ok(rest && (roots == 0) == (schema.types == 0))
}

// The entries of each type; false where one past the types is not 0.
fn show_types(out: &mut Printer, schema: &Schema) -> Result<bool, fmt::Error> {
    let mut rest = true;
    for a in 0..TYPES {
        let (tag, states, accepting) = (schema.tag[a], schema.states[a], schema.accepting[a]);
        let (nillable, steps) = (schema.nillable[a], schema.steps[a]);
        if a < usize::from(schema.types) {
            let nil = if nillable { " nil" } else { "" };
            write!(out, "; {tag} {states} {accepting} {steps}{nil}")?;
        } else {
            rest &= tag == 0 && states == 0 && accepting == 0 && !nillable && steps == 0;
        }
    }
    Ok(rest)
}

// The entries of each step; false where one past the steps is not 0.
fn show_steps(out: &mut Printer, schema: &Schema) -> Result<bool, fmt::Error> {
    let count = schema
        .steps
        .iter()
        .fold(0usize, |count, n| count.saturating_add(usize::from(*n)));
    let steps = schema.from.iter().zip(&schema.by).zip(&schema.to);
    let mut rest = true;
    for (i, ((from, by), to)) in steps.enumerate() {
        if i < count {
            write!(out, "; {from} {by} {to}")?;
        } else {
            rest &= *from == 0 && *by == 0 && *to == 0;
        }
    }
    Ok(rest)
}

fn show_schema(out: &mut Printer, schema: &Schema) -> fmt::Result {
    let (tags, types) = (schema.tags, schema.types);
    write!(out, " | tags {tags} types {types} root")?;
    let roots = show_roots(out, schema)?;
    let types = show_types(out, schema)?;
    let steps = show_steps(out, schema)?;
    let rest = if roots && types && steps {
        "0"
    } else {
        "not 0"
    };
    write!(out, "; rest {rest}")
}

pub(crate) fn run(out: &mut Printer, case: &Case<'_>, lent: &mut [u8]) -> fmt::Result {
    let read = read(case.first, lent);
    let refusal = read.err();
    show_verdict(out, refusal)?;
    show_schema(out, &read.unwrap_or(Schema::NONE))?;
    show_witness(out, refusal.map(|refusal| refusal.why), lent)?;
    writeln!(out)
}
