// The lines that say what would have been taken.
ghost use Rattle.std.specs.Prelude.{◌≡◌, length, cond, []};
ghost use Rattle.text.specs.Page.{Lays};
ghost use Rattle.report.specs.Words.{open_plain, open_nil};
ghost use Rattle.report.specs.Text.{numbered};
ghost use Rattle.report.specs.ExpectedText.{spaced, inside_line, open_line, open_lines, end_lines, taken_lines};

use expected::{Expected, OPENINGS};
use reading::LEVELS;
use text::Page;

// Puts the types, each after a space.
#[tactic(auto, using(crate::proofs::ExpectedLines::spaced_next, crate::proofs::ExpectedLines::spaced_end))]
fn put_spaced(page: &mut Page<'_>, types: &[u8])
    ensures { Lays page.old (spaced types.now) page.new }
{
    for t in types {
        page.numbered(b" ", usize::from(*t));
    }
}

// `inside`, and the types from the root down.
fn put_inside(page: &mut Page<'_>, types: &[u8])
    ensures { Lays page.old (inside_line types.now) page.new }
{
    page.bytes(b"inside");
    put_spaced(page, types);
    page.end_line();
}

// `open` or `open nil`, and the tag.
fn put_open_tag(page: &mut Page<'_>, nil: bool, tag: u8)
    ensures { Lays page.old (numbered (cond nil open_nil open_plain) tag) page.new }
{
    if nil {
        page.numbered(b"open nil ", usize::from(tag));
    } else {
        page.numbered(b"open ", usize::from(tag));
    }
}

// The line of an opening.
#[tactic(auto, using(text::proofs::PageLaws::laid_append), unfolding(crate::specs::ExpectedText::open_line))]
fn put_open(page: &mut Page<'_>, nil: bool, tag: u8)
    ensures { Lays page.old (open_line nil tag) page.new }
{
    put_open_tag(page, nil, tag);
    page.end_line();
}

// A line for each opening: its tag, and whether it is as nil.
// By index: two tables are read at it. A flag says whether an opening is as nil, as the layout of `Expected` for C has it.
#[tactic(auto, using(crate::proofs::ExpectedLines::open_next, crate::proofs::ExpectedLines::open_end))]
fn put_open_lines(page: &mut Page<'_>, tags: &[u8], nils: &[bool])
    requires { length tags.now ≡ length nils.now }
    ensures { Lays page.old (open_lines tags.now nils.now) page.new }
{
    for i in 0..tags.len() {
        put_open(page, nils[i], tags[i]);
    }
}

// A line where it holds.
#[tactic(auto, using(text::proofs::PageLaws::laid_none))]
fn put_if(page: &mut Page<'_>, holds: bool, line: &[u8])
    ensures { Lays page.old (cond holds line.now []) page.new }
{
    if holds {
        page.bytes(line);
    }
}

// `close` and `finish`, where they would have been taken.
#[tactic(auto, using(text::proofs::PageLaws::laid_append), unfolding(crate::specs::ExpectedText::end_lines))]
fn put_ends(page: &mut Page<'_>, closes: bool, finishes: bool)
    ensures { Lays page.old (end_lines closes finishes) page.new }
{
    put_if(page, closes, b"close\n");
    put_if(page, finishes, b"finish\n");
}

// The elements that are open, then the calls that would have been taken.
#[tactic(auto, using(text::proofs::PageLaws::laid_append, crate::proofs::ReportLaws::cut), unfolding(crate::specs::ExpectedText::taken_lines))]
pub(crate) fn put_taken(page: &mut Page<'_>, e: Expected)
    ensures { Lays page.old (taken_lines e) page.new }
{
    let depth = e.depth.min(LEVELS);
    let count = e.count.min(OPENINGS);
    put_inside(page, &e.types[..depth]);
    put_open_lines(page, &e.tags[..count], &e.nils[..count]);
    put_ends(page, e.closes, e.finishes);
}
