// A byte, bytes and a number put into a buffer at a place, as far as they fit: a page of one text. Where it does not fit, the place after it is
// the buffer's end.
// The place is handed in and given back: who lays one text keeps no page.
ghost use Rattle.std.specs.Prelude.{◌≡◌, [], ◌∷◌, min, max, length, decimal};
ghost use Rattle.text.specs.Laid.{Laid};

use crate::page::Page;

// Each line ends in byte 0A.
pub const LINE_END: u8 = 0x0a;

// The place after what was laid on a page from a place on; a place past the buffer's end stays.
fn place_after(page: &Page<'_>, at: usize) -> usize
    ensures { result ≡ max at (min page.now.at (length page.now.out.now)) }
{
    at.max(page.held())
}

// Puts a byte, and gives the place after it; from the buffer's end on nothing is put, and the place stays.
pub fn put_byte(out: &mut [u8], at: usize, byte: u8) -> usize
    ensures { Laid out.old at (byte ∷ []) out.new result }
{
    put_bytes(out, at, &[byte])
}

// Puts the bytes of a text, and gives the place after the last that fits.
#[tactic(auto, unfolding(crate::specs::Page::laid))]
pub fn put_bytes(out: &mut [u8], at: usize, text: &[u8]) -> usize
    ensures { Laid out.old at text.now out.new result }
{
    let mut page = Page::new(out, at);
    page.bytes(text);
    place_after(&page, at)
}

// Puts the number's digits, the most significant first, and gives the place after the last that fits.
#[tactic(auto, unfolding(crate::specs::Page::laid))]
pub fn put_decimal(out: &mut [u8], at: usize, n: usize) -> usize
    ensures { Laid out.old at (decimal n) out.new result }
{
    let mut page = Page::new(out, at);
    page.number(n);
    place_after(&page, at)
}
