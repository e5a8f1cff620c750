// Kind V: the first string is a schema file, the second items that put entries of the schema value (see `made_up`), and the buffer takes the
// witness. The line has whether the value is inside the limits; of its trimming the live states of each type, which types bear a tree, `nil`
// after one that bears only a nil tree and `both` after one that bears trees of both kinds, which are reached, and the rows; of `live_rows` the
// live states and the rows; and what the search for competition and the verdict on the schema answer, each with the buffer.
use crate::buffer::{fill, show_witness};
use crate::case::Case;
use crate::made_up::made_up;
use crate::printer::Printer;
use crate::schema_files::read_schema;
use crate::show::show_verdict;
use competition::{competition, judge};
use schema::{
    BEGINS, Entry, STEPS, Schema, TYPES, live_rows, opens_as_nil, opens_plainly, trim, within,
};
use sdtd::{Tag, TypeNo};
use std::fmt;
use std::fmt::Write;

// What the lent tables hold before a call: no zeros.
const LEFT_ENTRY: u32 = 0xa5a5_a5a5;

const LEFT_BEGIN: u16 = 0xa5a5;

// The live states of each type.
fn show_live(out: &mut Printer, live: &[u32; TYPES], schema: &Schema) -> fmt::Result {
    write!(out, "; live")?;
    for set in live.iter().take(usize::from(schema.types)) {
        write!(out, " {set}")?;
    }
    Ok(())
}

// The numbers of the types that are reached.
fn show_reached(out: &mut Printer, reached: &[bool; TYPES]) -> fmt::Result {
    write!(out, "; reached")?;
    for (a, marked) in reached.iter().enumerate() {
        if *marked {
            write!(out, " {a}")?;
        }
    }
    if reached.contains(&true) {
        return Ok(());
    }
    write!(out, " none")
}

// How a type bears trees, where not only plainly.
fn kinds(ways: u8) -> &'static str {
    match (opens_plainly(ways), opens_as_nil(ways)) {
        (true, true) => " both",
        (false, true) => " nil",
        (_, false) => "",
    }
}

// The numbers of the types that bear a tree.
fn show_bearing(out: &mut Printer, ways: &[u8; TYPES]) -> fmt::Result {
    write!(out, "; bears")?;
    for (a, w) in ways.iter().enumerate() {
        if *w != 0 {
            let kinds = kinds(*w);
            write!(out, " {a}{kinds}")?;
        }
    }
    if ways.iter().any(|w| *w != 0) {
        return Ok(());
    }
    write!(out, " none")
}

// An entry's two states, its type, the type's tag, and how it bears trees.
fn show_entry(out: &mut Printer, entry: Entry) -> fmt::Result {
    let (from, to, TypeNo(by), Tag(tag)) = (entry.from(), entry.to(), entry.by(), entry.tag());
    let kinds = kinds(entry.ways());
    write!(out, " {from} {to} {by} {tag}{kinds}")
}

// The rows that have an entry, and what stands past all rows but zeros.
fn show_rows(out: &mut Printer, entries: &[u32; STEPS], begins: &[u16; BEGINS]) -> fmt::Result {
    write!(out, "; rows")?;
    let mut past = 0;
    for (i, ends) in begins.windows(2).enumerate() {
        let [start, end] = ends else { continue };
        if start < end {
            write!(out, " row {i}")?;
            past = usize::from(*end);
            for entry in entries.iter().take(past).skip(usize::from(*start)) {
                show_entry(out, Entry(*entry))?;
            }
        }
    }
    for (k, entry) in entries.iter().enumerate().skip(past) {
        if *entry != 0 {
            write!(out, " left {k}")?;
        }
    }
    Ok(())
}

fn show_trimming(out: &mut Printer, schema: &Schema) -> fmt::Result {
    let mut entries = [LEFT_ENTRY; STEPS];
    let mut begins = [LEFT_BEGIN; BEGINS];
    let trimming = trim(schema, &mut entries, &mut begins);
    show_live(out, &trimming.live, schema)?;
    show_bearing(out, &trimming.ways)?;
    show_reached(out, &trimming.reached)?;
    show_rows(out, &entries, &begins)
}

fn show_live_rows(out: &mut Printer, schema: &Schema) -> fmt::Result {
    let mut entries = [LEFT_ENTRY; STEPS];
    let mut begins = [LEFT_BEGIN; BEGINS];
    let found = live_rows(schema, &mut entries, &mut begins);
    let live = found.map_or([0; TYPES], |found| found.live);
    show_live(out, &live, schema)?;
    show_rows(out, &entries, &begins)
}

pub(crate) fn run(out: &mut Printer, case: &Case<'_>, lent: &mut [u8]) -> fmt::Result {
    let read = read_schema(case.first);
    let schema = made_up(read.unwrap_or(Schema::NONE), case.second);
    let place = if within(&schema) { "inside" } else { "outside" };
    write!(out, "{place}")?;
    show_trimming(out, &schema)?;
    show_live_rows(out, &schema)?;
    let searched = competition(&schema, lent).err();
    let number = searched.map_or(0, |why| why.number());
    write!(out, "; search {number}")?;
    show_witness(out, searched, lent)?;
    fill(lent);
    let judged = judge(&schema, lent).err();
    write!(out, "; judge ")?;
    show_verdict(out, judged.map(|why| why.at(0)))?;
    show_witness(out, judged, lent)?;
    writeln!(out)
}
