// The buffer that a call is lent: filled with a pattern before the call, and afterwards what the call made of it.
use crate::printer::Printer;
use crate::show::show_numbers;
use competition::WORD_PLACE;
use sdtd::Refused;
use std::fmt;
use std::fmt::Write;

// The buffer's byte before the call, above every type.
fn pattern(at: usize) -> u8 {
    // below 255, so the cast cuts nothing
    (128 + at % 127) as u8
}

pub(crate) fn fill(lent: &mut [u8]) {
    for (at, byte) in lent.iter_mut().enumerate() {
        *byte = pattern(at);
    }
}

// Whether the bytes from `start` on are as they were.
pub(crate) fn show_kept(out: &mut Printer, lent: &[u8], start: usize) -> fmt::Result {
    for (at, byte) in lent.iter().enumerate().skip(start) {
        if *byte != pattern(at) {
            return write!(out, " | changed at {at}");
        }
    }
    write!(out, " | kept")
}

// Whether the bytes past the witness are as they were; and the witness, with the length of its word as one number.
fn show_competition(out: &mut Printer, lent: &[u8]) -> fmt::Result {
    let [parent, first, second, low, high, word @ ..] = lent else {
        return Ok(());
    };
    let n = usize::from(u16::from_le_bytes([*low, *high]));
    show_kept(out, lent, WORD_PLACE + n)?;
    write!(out, " | {parent} {first} {second} {n}")?;
    show_numbers(out, &word[..n.min(word.len())])
}

// The witness buffer beside an answer: on a competition its first bytes are the witness.
pub(crate) fn show_witness(
    out: &mut Printer,
    refused: Option<Refused>,
    lent: &[u8],
) -> fmt::Result {
    match refused {
        Some(Refused::Competition) => show_competition(out, lent),
        _ => show_kept(out, lent, 0),
    }
}
