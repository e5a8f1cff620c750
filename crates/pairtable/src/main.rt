// Prints the table of pair numbers as it stands in the code: one decimal number a line, "rising by first state, then second".
#![tactic(auto)]

ghost use Rattle.std.specs.Prelude.{take};
ghost use Rattle.pairs.specs.Table.{PairTable};
ghost use Rattle.text.specs.Laid.{Laid};
ghost use Rattle.text.specs.Page.{Lays};
ghost use Rattle.pairtable.specs.Lines.{line_of, lines_of, IsTableText, TextOf};

use pairs::{ORDERED_PAIRS, PAIR_NUMBERS};
use std::io;
use std::io::Print;
use text::Page;

// Of each number at most three digits, since it is below 528, and a line end.
const OUTPUT: usize = 4 * ORDERED_PAIRS;

// Lays the number's line.
#[tactic(auto, using(text::proofs::PageLaws::laid_append))]
fn lay_line(page: &mut Page<'_>, n: u16)
    ensures { Lays page.old (line_of n) page.new }
{
    page.number(usize::from(n));
    page.end_line();
}

// Lays a line for each number.
#[tactic(auto, using(crate::proofs::LineLaws::lines_next, crate::proofs::LineLaws::lines_end))]
fn lay_lines(page: &mut Page<'_>, numbers: &[u16])
    ensures { Lays page.old (lines_of numbers.now) page.new }
{
    for n in numbers {
        lay_line(page, *n);
    }
}

// Puts a line for each number, and gives the place after the last.
#[tactic(auto, unfolding(text::specs::Page::laid))]
fn put_lines(out: &mut [u8], numbers: &[u16]) -> usize
    ensures { Laid out.old 0 (lines_of numbers.now) out.new result }
{
    let mut page = Page::new(out, 0);
    lay_lines(&mut page, numbers);
    page.held()
}

// Puts the lines of the table, and gives their length.
#[tactic(auto, using(crate::proofs::LineLengths::table_text))]
fn table_text(out: &mut [u8; OUTPUT], numbers: &[u16]) -> usize
    requires { PairTable numbers.now }
    ensures lines { TextOf numbers.now out.new result }
    ensures whole { IsTableText (take result out.new) }
{
    put_lines(out, numbers)
}

fn main(rt: HostRuntime) -> io::Result<()> {
    let mut out = [0; OUTPUT];
    let n = table_text(&mut out, &PAIR_NUMBERS);
    rt.write_all(&out[..n])
}
