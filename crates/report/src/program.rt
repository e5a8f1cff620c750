// The program's whole job on slices.
ghost use Rattle.std.specs.Prelude.{◌≡◌, ℕ, ◌<◌, ◌≤◌, List, length, take, MatchOption};
ghost use Rattle.sdtd.specs.Answer.{question_number};
ghost use Rattle.report.specs.Text.{schema_refused_text, events_text, text_of};
ghost use Rattle.report.specs.Report.{most_schema, most_events, types_held, most_text, JobPrinted, Reported};
ghost use Rattle.report.specs.Steps.{most_refused, WholeLaid, AnswerLaid};

use crate::lines::{put_last, put_refusal, put_witness};
use crate::openings::put_openings;
use competition::{LEAST_WITNESS, witness_head};
use reading::EventFile;
use sdtd::{Refusal, Refused};
use text::Page;
use typing::type_document;

// The schema file's bytes that count.
pub const MOST_SCHEMA: usize = 16384;

// The most bytes of events.
pub const MOST_EVENTS: usize = 32768;

// How many types the buffer holds.
const TYPES_HELD: usize = 16384;

// The bytes of the first line.
const HEADER: usize = 15;

// The most bytes of an opening's line.
const MOST_LINE: usize = 14;

// The most bytes of the last line.
pub(crate) const MOST_LAST: usize = 36;

// The longest text.
pub const OUTPUT: usize = HEADER + MOST_LINE * TYPES_HELD + MOST_LAST;

// The text of a refused schema.
pub(crate) fn put_schema_refused(
    page: &mut Page<'_>,
    witness: &[u8; LEAST_WITNESS],
    refusal: Refusal,
)
    ensures { WholeLaid most_refused page.old
        (schema_refused_text witness.now (question_number refusal.why) refusal.place) page.new }
{
    put_refusal(
        page,
        b"schema refused ",
        refusal.why.number(),
        refusal.place,
    );
    if refusal.why == Refused::Competition {
        put_witness(page, witness_head(witness));
    }
}

// The text under an accepted schema.
fn put_events_read(page: &mut Page<'_>, events: &[u8], types: &[u8], e: EventFile)
    requires { (length events.now ≤ most_events) × (length types.now ≤ types_held) }
    ensures { WholeLaid most_text page.old (events_text events.now types.now e) page.new }
{
    let taken = e.count.min(types.len());
    page.line(b"depth tag type");
    put_openings(page, events, &types[..taken]);
    put_last(page, e);
}

// The text of a job.
fn put_job(
    page: &mut Page<'_>,
    events: &[u8],
    witness: &[u8; LEAST_WITNESS],
    types: &[u8],
    job: Result<EventFile, Refusal>,
)
    requires { (length events.now ≤ most_events) × (length types.now ≤ types_held) }
    ensures { WholeLaid most_text page.old (text_of events.now witness.now types.now job) page.new }
{
    match job {
        Ok(e) => put_events_read(page, events, types, e),
        Err(refusal) => put_schema_refused(page, witness, refusal),
    }
}

// The schema file's bytes that count; none where the events are too long.
pub(crate) fn counted<'a>(schema: &'a [u8], events: &[u8]) -> Option<&'a [u8]>
    ensures { MatchOption result (most_events < length events.now)
        (λ s. (length events.now ≤ most_events) × (s.now ≡ take most_schema schema.now)) }
{
    if MOST_EVENTS < events.len() {
        return None;
    }
    Some(&schema[..schema.len().min(MOST_SCHEMA)])
}

// The job on the two files, and its text; above the most bytes of events only `too long`.
fn put_answer(page: &mut Page<'_>, schema: &[u8], events: &[u8])
    ensures { AnswerLaid JobPrinted most_text schema.now events.now page.old page.new }
{
    let Some(schema) = counted(schema, events) else {
        page.line(b"too long");
        return;
    };
    let mut witness = [0u8; LEAST_WITNESS];
    let mut types = [0u8; TYPES_HELD];
    let job = type_document(schema, events, &mut witness, &mut types);
    put_job(page, events, &witness, &types, job);
}

// What the program prints for the bytes of its schema file and of its events, put into `out` as far as it fits; and how many bytes of it are there.
pub fn report(schema: &[u8], events: &[u8], out: &mut [u8]) -> usize
    ensures { Reported schema.now events.now out.old out.new result }
{
    let mut page = Page::new(out, 0);
    put_answer(&mut page, schema, events);
    page.held()
}
