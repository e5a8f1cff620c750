// The witness of a competition: written to the lent buffer, and its head read again.
ghost use Rattle.std.specs.Prelude.{◌≡◌, ◌∷◌, ◌++◌, ◌+◌, ◌/◌, ◌%◌, ◌<◌, ◌≤◌, min, max, length, drop};
ghost use Rattle.sdtd.specs.Limits.{most_pairs, most_word, least_witness};
ghost use Rattle.sdtd.specs.Competition.{witness_bytes};
ghost use Rattle.competition.specs.Found.{Linked, word_to};
ghost use Rattle.competition.specs.Witness.{word_place, head_of};

use crate::queue::{Found, Queue};
use crate::rivals::Rivals;
use pairs::PAIRS;
use sdtd::TypeNo;

// "then w, one byte a type, from byte 5 on"
pub const WORD_PLACE: usize = 5;

// "the witness has 255 for A and n = 0": what stands for A where two roots compete, which is no type's number
pub(crate) const NO_PARENT: TypeNo = TypeNo(255);

// "Has the witness buffer at least 532 bytes?": the bytes before the word, and the longest word.
pub const LEAST_WITNESS: usize = WORD_PLACE + PAIRS - 1;

// What stands before the word: the type in which two compete, or `NO_PARENT`, the two, and how many types the word has.
#[derive(Clone, Copy)]
pub struct WitnessHead {
    pub of: TypeNo,
    pub first: TypeNo,
    pub second: TypeNo,
    pub word: usize,
}

// How many types the word to the pair at the place `at` has. No `for`: the way back goes from a pair to the one it was found from.
fn word_length(queue: &[Found; PAIRS], at: usize) -> usize
    requires { (at < most_pairs) × Linked queue.now at }
    ensures { (result ≡ length (word_to at queue.now at)) × (result ≤ at) }
{
    let mut n = 0;
    let mut i = at;
    while 0 < i {
        i = usize::from(queue[i].parent);
        n += 1;
    }
    n
}

// The word of n types to the pair at the place `at`, from the end of the word back to its beginning; no `for`, as for its length.
fn fill_word(out: &mut [u8], queue: &[Found; PAIRS], at: usize, n: usize)
    requires { (at < most_pairs) × Linked queue.now at × (n ≡ length (word_to at queue.now at)) × (n ≤ length out.old) }
    ensures { out.new ≡ word_to at queue.now at ++ drop n out.old }
{
    let mut left = n;
    let mut i = at;
    while 0 < i {
        let found = queue[i];
        left -= 1;
        out[left] = found.by.0;
        i = usize::from(found.parent);
    }
}

// The bytes before the word.
pub(crate) fn write_head(witness: &mut [u8], head: WitnessHead)
    requires { (word_place ≤ length witness.old) × (head.word ≤ most_word) }
    ensures { witness.new
        ≡ head.of.0 ∷ head.first.0 ∷ head.second.0 ∷ head.word % 256 ∷ head.word / 256 ∷ drop word_place witness.old }
{
    // A word has at most 527 types; a `try_from` would have a case that never comes.
    let [low, high] = (head.word as u16).to_le_bytes();
    let bytes = [head.of.0, head.first.0, head.second.0, low, high];
    witness[..WORD_PLACE].copy_from_slice(&bytes);
}

// The whole witness: the types compete in `of` after the word to the pair at the place `at`. The smaller of the two stands first.
pub(crate) fn write_witness(
    witness: &mut [u8],
    of: TypeNo,
    rivals: Rivals,
    queue: &Queue,
    at: usize,
)
    requires { (at < most_pairs) × Linked queue.now.found at × (least_witness ≤ length witness.old) }
    ensures { witness.new
        ≡ witness_bytes of.0 (min rivals.first.0 rivals.second.0) (max rivals.first.0 rivals.second.0) (word_to at queue.now.found at)
        ++ drop (word_place + length (word_to at queue.now.found at)) witness.old }
{
    let n = word_length(&queue.found, at);
    let head = WitnessHead {
        of,
        first: rivals.first.min(rivals.second),
        second: rivals.first.max(rivals.second),
        word: n,
    };
    write_head(witness, head);
    fill_word(&mut witness[WORD_PLACE..], &queue.found, at, n);
}

// The head of the witness in a buffer.
pub fn witness_head(witness: &[u8; LEAST_WITNESS]) -> WitnessHead
    ensures { result ≡ head_of witness.now }
{
    WitnessHead {
        of: TypeNo(witness[0]),
        first: TypeNo(witness[1]),
        second: TypeNo(witness[2]),
        word: usize::from(u16::from_le_bytes([witness[3], witness[4]])),
    }
}
