// Entry points of the benchmark: the calls on schemas, readings and event files, on what C and Rust can hand over and take back.
// Schemas and readings come by value and answers go back as numbers, since the benchmark's callers in C and Rust declare them so.
#![tactic(auto)]

ghost use Rattle.std.specs.Prelude.{◌≡◌, ◌↔◌, T};
ghost use Rattle.sdtd.specs.Tree.{plain, nil};
ghost use Rattle.sdtd.specs.Document.{opening, closing, finish};
ghost use Rattle.sdtd.specs.Schema.{WithinLimits};
ghost use Rattle.schema.specs.Value.{meaning};
ghost use Rattle.schema.specs.Trimming.{TrimMeans, RowsLent};
ghost use Rattle.competition.specs.Search.{SearchMeans};
ghost use Rattle.reading.specs.EventFile.{EventsMean};
ghost use Rattle.expected.specs.Expected.{ExpectedMeans};
ghost use Rattle.reading.specs.Calls.{typed_of, taken_of};
ghost use Rattle.sdtd.specs.Answer.{refused, question_number};
ghost use Rattle.engine_bench.specs.Handed.{numbers_of, Handed};

use competition::competition;
use expected::{Expected, expect_next};
use reading::{EventFile, Reading, open_lent, read_events};
use schema::{BEGINS, STEPS, Schema, Trimming, trim, within};
use sdtd::{Refused, Tag, TypeNo};

// Is the schema inside the limits?
#[unsafe(no_mangle)]
pub extern "C" fn bench_within(schema: Schema) -> bool
    ensures { T result ↔ WithinLimits (meaning schema) }
{
    within(&schema)
}

// The tables of the schema's trimming; its rows go to the tables lent.
#[unsafe(no_mangle)]
pub extern "C" fn bench_trim<'a>(
    schema: Schema,
    entries: &'a mut [u32; STEPS],
    begins: &'a mut [u16; BEGINS],
) -> Trimming
    ensures { TrimMeans (meaning schema) result × RowsLent (meaning schema) entries.new begins.new }
{
    trim(&schema, entries, begins)
}

// The number of the question that the search answers no, 0 where nothing competes.
#[unsafe(no_mangle)]
pub extern "C" fn bench_competition(schema: Schema, witness: &mut [u8]) -> u8
    ensures { SearchMeans (meaning schema) witness.old witness.new result }
{
    match competition(&schema, witness) {
        Ok(()) => 0,
        Err(why) => why.number(),
    }
}

// An answer as two numbers.
#[repr(C)]
#[derive(Clone, Copy)]
pub struct Answer {
    pub kind: u8,
    pub of: u8,
}

// The same, and the reading that follows.
#[repr(C)]
#[derive(Clone, Copy)]
pub struct Answered {
    pub answer: Answer,
    pub reading: Reading,
}

fn refused(why: Refused) -> Answer
    ensures { result ≡ numbers_of (refused (question_number why)) }
{
    Answer {
        kind: 2,
        of: why.number(),
    }
}

fn typed(answer: Result<TypeNo, Refused>) -> Answer
    ensures { result ≡ numbers_of (typed_of answer) }
{
    match answer {
        Ok(given) => Answer {
            kind: 0,
            of: given.0,
        },
        Err(why) => refused(why),
    }
}

fn taken(answer: Result<(), Refused>) -> Answer
    ensures { result ≡ numbers_of (taken_of answer) }
{
    match answer {
        Ok(()) => Answer { kind: 1, of: 0 },
        Err(why) => refused(why),
    }
}

// An opening of the tag, plainly.
#[unsafe(no_mangle)]
pub extern "C" fn bench_open(schema: Schema, reading: Reading, tag: u8) -> Answered
    ensures { Handed (meaning schema) reading (opening plain tag) result.reading result.answer }
{
    let next = reading.open(&schema, Tag(tag));
    Answered {
        answer: typed(next.answer),
        reading: next.reading,
    }
}

// An opening of the tag as nil.
#[unsafe(no_mangle)]
pub extern "C" fn bench_open_nil(schema: Schema, reading: Reading, tag: u8) -> Answered
    ensures { Handed (meaning schema) reading (opening nil tag) result.reading result.answer }
{
    let next = reading.open_nil(&schema, Tag(tag));
    Answered {
        answer: typed(next.answer),
        reading: next.reading,
    }
}

// A closing of the tag.
#[unsafe(no_mangle)]
pub extern "C" fn bench_close(schema: Schema, reading: Reading, tag: u8) -> Answered
    ensures { Handed (meaning schema) reading (closing tag) result.reading result.answer }
{
    let next = reading.close(&schema, Tag(tag));
    Answered {
        answer: taken(next.answer),
        reading: next.reading,
    }
}

// The finish.
#[unsafe(no_mangle)]
pub extern "C" fn bench_finish(schema: Schema, reading: Reading) -> Answered
    ensures { Handed (meaning schema) reading finish result.reading result.answer }
{
    let next = reading.finish(&schema);
    Answered {
        answer: taken(next.answer),
        reading: next.reading,
    }
}

// An opening of the tag, plainly, on a lent reading.
#[unsafe(no_mangle)]
pub extern "C" fn bench_open_lent(reading: &mut Reading, schema: Schema, tag: u8) -> Answer
    ensures { Handed (meaning schema) reading.old (opening plain tag) reading.new result }
{
    typed(open_lent(reading, &schema, Tag(tag)))
}

// The same schema, copied table by table into a value of one's own, as a caller in Rattle has it. Handed on as it came from C, the compiler keeps a
// variable of the walk's inner loop in memory, and types of many steps take up to twice as long.
fn own(schema: Schema) -> Schema
    ensures { result ≡ schema }
{
    let root = schema.root;
    let tag = schema.tag;
    let states = schema.states;
    let accepting = schema.accepting;
    let nillable = schema.nillable;
    let steps = schema.steps;
    let from = schema.from;
    let by = schema.by;
    let to = schema.to;
    Schema {
        tags: schema.tags,
        types: schema.types,
        roots: schema.roots,
        root,
        tag,
        states,
        accepting,
        nillable,
        steps,
        from,
        by,
        to,
    }
}

// The event file's answer; types go to the buffer.
#[unsafe(no_mangle)]
pub extern "C" fn bench_events(schema: Schema, events: &[u8], out: &mut [u8]) -> EventFile
    ensures { EventsMean (meaning schema) events.now out.old out.new result }
{
    read_events(&own(schema), events, out)
}

// Where the event file is refused, and what would have been taken there.
#[unsafe(no_mangle)]
pub extern "C" fn bench_expected(schema: Schema, events: &[u8]) -> Expected
    ensures { ExpectedMeans (meaning schema) events.now result }
{
    expect_next(&own(schema), events)
}
