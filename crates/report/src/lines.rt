// The lines of the text.
ghost use Rattle.text.specs.Page.{Lays};
ghost use Rattle.report.specs.Text.{refusal_line, rivals, witness_line, opening_line, last_line};

use competition::WitnessHead;
use reading::EventFile;
use sdtd::{Tag, TypeNo};
use text::Page;

// `N at P` after the words.
// The refusal is handed in as its number, as the layouts of `EventFile` and `Expected` for C have it.
#[tactic(auto, using(text::proofs::PageLaws::laid_append), unfolding(crate::specs::Text::refusal_line))]
pub(crate) fn put_refusal(page: &mut Page<'_>, words: &[u8], number: u8, place: usize)
    ensures { Lays page.old (refusal_line words.now number place) page.new }
{
    page.numbered(words, usize::from(number));
    page.numbered(b" at ", place);
    page.end_line();
}

// `type A gives J or K`.
fn put_rivals(page: &mut Page<'_>, a: TypeNo, j: TypeNo, k: TypeNo)
    ensures { Lays page.old (rivals a.0 j.0 k.0) page.new }
{
    page.numbered(b"type ", usize::from(a.0));
    page.numbered(b" gives ", usize::from(j.0));
    page.numbered(b" or ", usize::from(k.0));
}

// `type A gives J or K after n`, from the head of a witness.
pub(crate) fn put_witness(page: &mut Page<'_>, head: WitnessHead)
    ensures { Lays page.old (witness_line head) page.new }
{
    put_rivals(page, head.of, head.first, head.second);
    page.numbered(b" after ", head.word);
    page.end_line();
}

// An opening's level, tag and type.
#[tactic(auto, using(text::proofs::PageLaws::laid_append), unfolding(crate::specs::Text::opening_line))]
pub(crate) fn put_opening(page: &mut Page<'_>, level: usize, tag: Tag, type_no: TypeNo)
    ensures { Lays page.old (opening_line level tag.0 type_no.0) page.new }
{
    page.number(level);
    page.numbered(b" ", usize::from(tag.0));
    page.numbered(b" ", usize::from(type_no.0));
    page.end_line();
}

// `accepted` with the count of openings, or `refused N at P`.
pub(crate) fn put_last(page: &mut Page<'_>, e: EventFile)
    ensures { Lays page.old (last_line e) page.new }
{
    if e.number == 0 {
        page.numbered(b"accepted ", e.count);
        page.end_line();
    } else {
        put_refusal(page, b"refused ", e.number, e.place);
    }
}
