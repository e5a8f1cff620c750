// Says what would have been taken where the events of standard input are refused under the schema of the file `schema.tab`. What it prints is
// decided by `report_expected`; here is only the reading and the writing.
#![tactic(auto)]

use input::{read_full, read_start};
use report::{EXPECTED_OUTPUT, MOST_EVENTS, MOST_SCHEMA, report_expected};
use std::io;
use std::io::Print;

// One byte more than the most events, so that a longer file is seen.
const EVENTS: usize = MOST_EVENTS + 1;

// The lines are those of `typestock`: a function for both would take the report with its contract, which is longer than they are.
fn main(rt: HostRuntime) -> io::Result<()> {
    let mut schema = [0u8; MOST_SCHEMA];
    let mut events = [0u8; EVENTS];
    let mut out = [0u8; EXPECTED_OUTPUT];
    let s = read_start(&rt, "schema.tab", &mut schema);
    let e = read_full(&mut rt.stdin(), &mut events);
    let n = report_expected(&schema[..s], &events[..e], &mut out);
    rt.write_all(&out[..n])
}
