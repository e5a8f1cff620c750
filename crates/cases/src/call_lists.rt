// Kind C: the first string is a schema file, the second a list of items, from a fresh reading on. Beside a refused schema file stands the value of
// no schema. A call is by value 00 opening, 01 closing, 02 finish, 06 nil opening, on a lent reading 03, 04, 05 and 07; then the tag. The line has
// the schema file's answer and for each item its answer, tN for the type N, ok for taken, rN for a refusal, put for an entry, and what the reading
// holds now and did not before.
use crate::case::Case;
use crate::changes::{blank, show_changes};
use crate::items::{Call, Item, Items};
use crate::made_up::Held;
use crate::printer::Printer;
use crate::schema_files::read_schema;
use crate::show::show_verdict;
use reading::{Next, Reading, close_lent, finish_lent, open_lent, open_nil_lent};
use schema::Schema;
use sdtd::{Refused, Tag, TypeNo};
use std::fmt;
use std::fmt::Write;

// The answer of a call by value; the reading that it handed back is the reading now.
fn moved_on<A>(reading: &mut Reading, next: Next<A>) -> Result<A, Refused> {
    *reading = next.reading;
    next.answer
}

impl Held {
    // Makes the call, which moves the reading on: the type of an opening, nothing of another call.
    fn call(&mut self, which: Call, tag: Tag) -> Result<Option<TypeNo>, Refused> {
        let Held { schema, reading } = self;
        let before = *reading;
        match which {
            Call::Open => moved_on(reading, before.open(schema, tag)).map(Some),
            Call::OpenNil => moved_on(reading, before.open_nil(schema, tag)).map(Some),
            Call::Close => moved_on(reading, before.close(schema, tag)).map(|()| None),
            Call::Finish => moved_on(reading, before.finish(schema)).map(|()| None),
            Call::OpenLent => open_lent(reading, schema, tag).map(Some),
            Call::OpenNilLent => open_nil_lent(reading, schema, tag).map(Some),
            Call::CloseLent => close_lent(reading, schema, tag).map(|()| None),
            Call::FinishLent => finish_lent(reading, schema).map(|()| None),
        }
    }
}

fn show_event(out: &mut Printer, answer: Result<Option<TypeNo>, Refused>) -> fmt::Result {
    match answer {
        Ok(Some(TypeNo(j))) => write!(out, " t{j}"),
        Ok(None) => write!(out, " ok"),
        Err(why) => {
            let number = why.number();
            write!(out, " r{number}")
        }
    }
}

pub(crate) fn run(out: &mut Printer, case: &Case<'_>) -> fmt::Result {
    let read = read_schema(case.first);
    let mut held = Held::new(read.unwrap_or(Schema::NONE));
    show_verdict(out, read.err())?;
    show_changes(out, &blank(), &held.reading)?;
    for item in (Items { rest: case.second }) {
        let before = held.reading;
        match item {
            Item::Called(call, tag) => show_event(out, held.call(call, tag))?,
            Item::Given(put) => {
                held.put(put);
                write!(out, " put")?;
            }
        }
        show_changes(out, &before, &held.reading)?;
    }
    writeln!(out)
}
