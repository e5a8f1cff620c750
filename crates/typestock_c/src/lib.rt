// The engine for callers in other languages: the calls of `schema_file`, `schema_writer`, `typing` and `events`, with their answers as numbers.
// c/typestock.h declares them for C, and rust/typestock wraps them for Rust.
// Numbers stand beside values, and flags beside what they are of, since C reads these layouts.
#![tactic(auto)]

ghost use Rattle.std.specs.Prelude.{◌≡◌};
ghost use Rattle.sdtd.specs.Answer.{question_number, refused_at};
ghost use Rattle.sdtd.specs.Output.{written_of};
ghost use Rattle.events.specs.Outline.{next_opening};
ghost use Rattle.typestock_c.specs.Numbers.{
  cursor_at,
  schema_numbers,
  written_numbers,
  document_numbers,
  expected_beside,
  expected_numbers,
  opening_numbers,
};
ghost use Rattle.typestock_c.specs.Exports.{SchemaMeans, WrittenMeans, DocumentMeans, ExpectedDocumentMeans};

use events::{Cursor, next_opening};
use expected::{Expected, OPENINGS, nothing_expected};
use reading::{EventFile, LEVELS};
use schema_file::read;
use schema_writer::write_reduced;
use sdtd::{Refusal, Refused, Tag};
use typing::{expect_document, type_document};

// A schema file's answer: a refusal's number and place; 0 and 0 for accepted.
#[repr(C)]
#[derive(Clone, Copy)]
pub struct TypestockSchema {
    pub number: u8,
    pub place: usize,
}

// The writer's: 0 and the length written; or a refusal's number and 0.
#[repr(C)]
#[derive(Clone, Copy)]
pub struct TypestockWritten {
    pub number: u8,
    pub length: usize,
}

// The whole job's: the schema file's answer, and the event file's; where the schema is refused, its number and place once more.
#[repr(C)]
#[derive(Clone, Copy)]
pub struct TypestockDocument {
    pub schema_number: u8,
    pub schema_place: usize,
    pub number: u8,
    pub place: usize,
    pub count: usize,
}

// What would have been taken: the schema file's answer, and `expected::Expected` field by field; where the schema is refused, its number and place
// once more, and nothing.
#[repr(C)]
#[derive(Clone, Copy)]
pub struct TypestockExpected {
    pub schema_number: u8,
    pub schema_place: usize,
    pub number: u8,
    pub place: usize,
    pub depth: usize,
    pub types: [u8; LEVELS],
    pub count: usize,
    pub tags: [u8; OPENINGS],
    pub nils: [bool; OPENINGS],
    pub closes: bool,
    pub finishes: bool,
}

// The next opening: whether there is one, its tag, and the cursor past it; with none, tag 0 and the cursor handed in.
#[repr(C)]
#[derive(Clone, Copy)]
pub struct TypestockOpening {
    pub found: bool,
    pub tag: u8,
    pub at: usize,
    pub level: usize,
}

// an accepted schema's
const ACCEPTED: TypestockSchema = TypestockSchema {
    number: 0,
    place: 0,
};

fn refused_schema(refusal: Refusal) -> TypestockSchema
    ensures { result ≡ schema_numbers (refused_at (question_number refusal.why) refusal.place) }
{
    TypestockSchema {
        number: refusal.why.number(),
        place: refusal.place,
    }
}

fn written_numbers(written: Result<usize, Refused>) -> TypestockWritten
    ensures { result ≡ written_numbers (written_of written) }
{
    match written {
        Ok(length) => TypestockWritten { number: 0, length },
        Err(why) => TypestockWritten {
            number: why.number(),
            length: 0,
        },
    }
}

fn document_numbers(job: Result<EventFile, Refusal>) -> TypestockDocument
    ensures { result ≡ document_numbers job }
{
    match job {
        Ok(file) => TypestockDocument {
            schema_number: 0,
            schema_place: 0,
            number: file.number,
            place: file.place,
            count: file.count,
        },
        Err(refusal) => TypestockDocument {
            schema_number: refusal.why.number(),
            schema_place: refusal.place,
            number: refusal.why.number(),
            place: refusal.place,
            count: 0,
        },
    }
}

fn expected_beside(schema: TypestockSchema, told: Expected) -> TypestockExpected
    ensures { result ≡ expected_beside schema told }
{
    let types = told.types;
    let tags = told.tags;
    let nils = told.nils;
    TypestockExpected {
        schema_number: schema.number,
        schema_place: schema.place,
        number: told.number,
        place: told.place,
        depth: told.depth,
        types,
        count: told.count,
        tags,
        nils,
        closes: told.closes,
        finishes: told.finishes,
    }
}

fn expected_numbers(job: Result<Expected, Refusal>) -> TypestockExpected
    ensures { result ≡ expected_numbers job }
{
    match job {
        Ok(told) => expected_beside(ACCEPTED, told),
        Err(refusal) => {
            let nothing = nothing_expected(refusal.why.number(), refusal.place);
            expected_beside(refused_schema(refusal), nothing)
        }
    }
}

fn opening_numbers(from: Cursor, next: Option<(Tag, Cursor)>) -> TypestockOpening
    ensures { result ≡ opening_numbers from next }
{
    match next {
        Some((tag, past)) => TypestockOpening {
            found: true,
            tag: tag.0,
            at: past.at,
            level: past.level,
        },
        None => TypestockOpening {
            found: false,
            tag: 0,
            at: from.at,
            level: from.level,
        },
    }
}

// The schema file's answer; on 9 the witness goes to the buffer.
#[unsafe(no_mangle)]
pub extern "C" fn typestock_check_schema(schema: &[u8], witness: &mut [u8]) -> TypestockSchema
    ensures { SchemaMeans schema.now witness.old witness.new result }
{
    match read(schema, witness) {
        Ok(_) => ACCEPTED,
        Err(refusal) => refused_schema(refusal),
    }
}

// The schema file without the types that no valid document uses, to the buffer.
#[unsafe(no_mangle)]
pub extern "C" fn typestock_write_reduced(schema: &[u8], out: &mut [u8]) -> TypestockWritten
    ensures { WrittenMeans schema.now out.old out.new result }
{
    written_numbers(write_reduced(schema, out))
}

// The schema file's answer, and under an accepted schema the event file's: on 9 the witness goes to its buffer, types go to theirs.
#[unsafe(no_mangle)]
pub extern "C" fn typestock_type_document(
    schema: &[u8],
    events: &[u8],
    witness: &mut [u8],
    types: &mut [u8],
) -> TypestockDocument
    ensures { DocumentMeans schema.now events.now witness.old witness.new
        types.old types.new result }
{
    document_numbers(type_document(schema, events, witness, types))
}

// The schema file's answer, and under an accepted schema what would have been taken where the event file is refused: on 9 the witness goes to its
// buffer.
#[unsafe(no_mangle)]
pub extern "C" fn typestock_expect_document(
    schema: &[u8],
    events: &[u8],
    witness: &mut [u8],
) -> TypestockExpected
    ensures { ExpectedDocumentMeans schema.now events.now witness.old witness.new result }
{
    expected_numbers(expect_document(schema, events, witness))
}

// The first opening from the place on, where so many elements are open.
#[unsafe(no_mangle)]
pub extern "C" fn typestock_next_opening(events: &[u8], at: usize, level: usize) -> TypestockOpening
    ensures { result ≡ opening_numbers (cursor_at at level) (next_opening events.now (cursor_at at level)) }
{
    let from = Cursor { at, level };
    opening_numbers(from, next_opening(events, from))
}
