// A page: a lent buffer, and the place in it where the next text goes.
ghost use Rattle.std.specs.Prelude.{◌≡◌, ◌++◌, min, length, decimal};
ghost use Rattle.std.proofs.lemmas.List.Edits.{sets};
ghost use Rattle.text.specs.Line.{line_end};
ghost use Rattle.text.specs.Page.{Lays};

use itoa::Buffer;

// A text that does not fit is counted all the same, so a page over a buffer of no bytes only counts. Clauses name the fields: the buffer `out` and the
// place `at`.
#[derive(Drop)]
pub struct Page<'a> {
    out: &'a mut [u8],
    at: usize,
}

// Puts the bytes of a text from a place on, as far as they fit. Laid in where it is called, so that a text of known length is stored and not copied.
#[inline(always)]
fn put_in(out: &mut [u8], at: usize, text: &[u8])
    ensures { out.new ≡ sets out.old at text.now }
{
    if out.len() <= at {
        return;
    }
    let n = text.len().min(out.len() - at);
    out[at..at + n].copy_from_slice(&text[..n]);
}

impl<'a> Page<'a> {
    // The page over a buffer, from a place on.
    pub fn new(out: &'a mut [u8], at: usize) -> Page<'a>
        ensures same_reference { result.out.ghost_name ≡ out.entry.ghost_name }
        ensures bytes { result.out.now ≡ out.old }
        ensures place { result.at ≡ at }
    {
        Page { out, at }
    }

    // Lays the bytes of a text.
    #[tactic(auto, unfolding(crate::specs::Page::laid))]
    pub fn bytes(&mut self, text: &[u8])
        ensures { Lays self.old text.now self.new }
    {
        put_in(self.out, self.at, text);
        self.at = self.at.saturating_add(text.len());
    }

    // Lays a number's decimal digits. One digit, which most numbers have, is a byte: the library's digits are made elsewhere and copied.
    #[tactic(auto, using(std::proofs::lemmas::Fmt::decimal_digit))]
    pub fn number(&mut self, n: usize)
        ensures { Lays self.old (decimal n) self.new }
    {
        if n < 10 {
            // below 10, so the cast cuts nothing
            self.bytes(&[b'0' + n as u8]);
        } else {
            self.bytes(Buffer::new().format(n).as_bytes());
        }
    }

    // Lays words, and a number after them.
    #[tactic(auto, using(crate::proofs::PageLaws::laid_append))]
    pub fn numbered(&mut self, words: &[u8], n: usize)
        ensures { Lays self.old (words.now ++ decimal n) self.new }
    {
        self.bytes(words);
        self.number(n);
    }

    // Ends the line.
    pub fn end_line(&mut self)
        ensures { Lays self.old line_end self.new }
    {
        self.bytes(b"\n");
    }

    // Lays a line of these words.
    #[tactic(auto, using(crate::proofs::PageLaws::laid_append))]
    pub fn line(&mut self, words: &[u8])
        ensures { Lays self.old (words.now ++ line_end) self.new }
    {
        self.bytes(words);
        self.end_line();
    }

    // How many bytes of the buffer stand before the place.
    pub fn held(&self) -> usize
        ensures { result ≡ min self.now.at (length self.now.out.now) }
    {
        self.at.min(self.out.len())
    }

    // The place: it counts the bytes that did not fit too.
    pub fn count(&self) -> usize
        ensures { result ≡ self.now.at }
    {
        self.at
    }
}
