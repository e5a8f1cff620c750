// The cases of the input, one after another.
//
// A case is its kind, a letter; three lengths of two bytes each, low byte first, of the buffer to lend and of two strings of bytes; then the two
// strings. A kind of 00 ends the cases.
use input::read_full;
use std::io::Stdin;

#[derive(Clone, Copy)]
pub(crate) enum Kind {
    SchemaFile,
    WrittenFile,
    SchemaValue,
    Calls,
    EventFile,
    Job,
    ExpectedFile,
    ExpectedJob,
    Pair,
    Set,
}

impl TryFrom<u8> for Kind {
    type Error = ();

    fn try_from(letter: u8) -> Result<Kind, ()> {
        match letter {
            b'S' => Ok(Kind::SchemaFile),
            b'W' => Ok(Kind::WrittenFile),
            b'V' => Ok(Kind::SchemaValue),
            b'C' => Ok(Kind::Calls),
            b'E' => Ok(Kind::EventFile),
            b'J' => Ok(Kind::Job),
            b'N' => Ok(Kind::ExpectedFile),
            b'X' => Ok(Kind::ExpectedJob),
            b'P' => Ok(Kind::Pair),
            b'Q' => Ok(Kind::Set),
            _ => Err(()),
        }
    }
}

// The longest string of a case and the longest buffer.
pub(crate) const LONGEST: usize = 0xffff;

// The bytes before the strings.
const HEAD: usize = 7;

const END: u8 = 0;

#[derive(Clone, Copy)]
pub(crate) struct Case<'a> {
    pub kind: Kind,
    pub room: u16,
    pub first: &'a [u8],
    pub second: &'a [u8],
}

// Why there is no further case: the kind 00, or an input that ends before a case does or has no such kind.
#[derive(Clone, Copy)]
pub(crate) enum Stop {
    End,
    NoCase,
}

// Reads the next case into what is lent for its strings. The strings of an unknown kind are read too.
pub(crate) fn next_case<'a>(
    stdin: &mut Stdin,
    first: &'a mut [u8; LONGEST],
    second: &'a mut [u8; LONGEST],
) -> Result<Case<'a>, Stop> {
    let mut head = [0; HEAD];
    if read_full(stdin, &mut head) < HEAD {
        return Err(Stop::NoCase);
    }
    let [letter, r0, r1, n0, n1, m0, m1] = head;
    if letter == END {
        return Err(Stop::End);
    }
    let room = u16::from_le_bytes([r0, r1]);
    let first = &mut first[..usize::from(u16::from_le_bytes([n0, n1]))];
    let second = &mut second[..usize::from(u16::from_le_bytes([m0, m1]))];
    let n = read_full(stdin, first);
    let m = read_full(stdin, second);
    if n < first.len() || m < second.len() {
        return Err(Stop::NoCase);
    }
    let kind = Kind::try_from(letter).map_err(|()| Stop::NoCase)?;
    Ok(Case {
        kind,
        room,
        first,
        second,
    })
}
