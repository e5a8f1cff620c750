// What the program `whatnext` prints, on slices.
ghost use Rattle.report.specs.ExpectedText.{expected_text, expected_text_of};
ghost use Rattle.report.specs.ExpectedReport.{most_expected, ExpectedPrinted, ExpectedReported};
ghost use Rattle.report.specs.Steps.{WholeLaid, AnswerLaid};

use crate::expected_lines::put_taken;
use crate::lines::put_refusal;
use crate::program::{MOST_LAST, counted, put_schema_refused};
use competition::LEAST_WITNESS;
use expected::{Expected, OPENINGS};
use reading::LEVELS;
use sdtd::Refusal;
use text::Page;
use typing::expect_document;

// The most bytes of a type's number with the space before it, or of a tag's with the line's end.
const MOST_NUMBER: usize = 4;

// The bytes of `inside` and of the line's end.
const INSIDE: usize = 7;

// The bytes of `open nil` and a space.
const OPEN_NIL: usize = 9;

// The bytes of the lines `close` and `finish`.
const ENDS: usize = 13;

// The longest text.
pub const EXPECTED_OUTPUT: usize = MOST_LAST
    + INSIDE
    + MOST_NUMBER * LEVELS
    + (OPEN_NIL + MOST_NUMBER) * OPENINGS
    + ENDS;

// The text under an accepted schema.
fn put_expected(page: &mut Page<'_>, e: Expected)
    ensures { WholeLaid most_expected page.old (expected_text e) page.new }
{
    if e.number == 0 {
        page.line(b"accepted");
        return;
    }
    put_refusal(page, b"refused ", e.number, e.place);
    put_taken(page, e);
}

// The text of a job.
fn put_expected_job(
    page: &mut Page<'_>,
    witness: &[u8; LEAST_WITNESS],
    job: Result<Expected, Refusal>,
)
    ensures { WholeLaid most_expected page.old (expected_text_of witness.now job) page.new }
{
    match job {
        Ok(e) => put_expected(page, e),
        Err(refusal) => put_schema_refused(page, witness, refusal),
    }
}

// The same steps as `put_answer` in `program`: one function for both would take the job with its contract, which is longer than the two.
// The job on the two files, and its text; above the most bytes of events only `too long`.
fn put_expected_answer(page: &mut Page<'_>, schema: &[u8], events: &[u8])
    ensures { AnswerLaid ExpectedPrinted most_expected schema.now events.now page.old page.new }
{
    let Some(schema) = counted(schema, events) else {
        page.line(b"too long");
        return;
    };
    let mut witness = [0u8; LEAST_WITNESS];
    let job = expect_document(schema, events, &mut witness);
    put_expected_job(page, &witness, job);
}

// What the program `whatnext` prints for the bytes of its schema file and of its events, put into `out` as far as it fits; and how many bytes of it
// are there.
pub fn report_expected(schema: &[u8], events: &[u8], out: &mut [u8]) -> usize
    ensures { ExpectedReported schema.now events.now out.old out.new result }
{
    let mut page = Page::new(out, 0);
    put_expected_answer(&mut page, schema, events);
    page.held()
}
