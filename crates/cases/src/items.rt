// The items of a list: calls of two bytes, the call and the tag, and entries put, of seven: the field, an index of two and the value of four, low
// byte first. An item cut short ends with zeros.
ghost use Rattle.std.specs.Prelude.{length};
ghost use Rattle.std.specs.Iterator.{at_most};

use crate::made_up::Field;
use sdtd::Tag;

#[derive(Clone, Copy)]
pub(crate) enum Call {
    Open,
    Close,
    Finish,
    OpenLent,
    CloseLent,
    FinishLent,
    OpenNil,
    OpenNilLent,
}

impl TryFrom<u8> for Call {
    type Error = ();

    fn try_from(first: u8) -> Result<Call, ()> {
        match first {
            0 => Ok(Call::Open),
            1 => Ok(Call::Close),
            2 => Ok(Call::Finish),
            3 => Ok(Call::OpenLent),
            4 => Ok(Call::CloseLent),
            5 => Ok(Call::FinishLent),
            6 => Ok(Call::OpenNil),
            7 => Ok(Call::OpenNilLent),
            _ => Err(()),
        }
    }
}

// An entry put; a byte that names no field puts nothing.
#[derive(Clone, Copy)]
pub(crate) struct Put {
    pub field: Option<Field>,
    pub index: usize,
    pub value: u32,
}

#[derive(Clone, Copy)]
pub(crate) enum Item {
    Called(Call, Tag),
    Given(Put),
}

// The first bytes of these, with zeros after the last.
pub(crate) fn padded<const N: usize>(bytes: &[u8]) -> [u8; N] {
    let mut padded = [0; N];
    let n = bytes.len().min(N);
    padded[..n].copy_from_slice(&bytes[..n]);
    padded
}

#[derive(Clone, Copy)]
pub(crate) struct Items<'a> {
    pub rest: &'a [u8],
}

impl Iterator for Items<'_> {
    type Item = Item;

    ghost remaining = { λ items. at_most (length items.rest.now) };

    fn next(&mut self) -> Option<Item> {
        if self.rest.is_empty() {
            return None;
        }
        let [first, i0, i1, v0, v1, v2, v3] = padded::<7>(self.rest);
        if let Ok(call) = Call::try_from(first) {
            self.rest = self.rest.get(2..).unwrap_or(&[]);
            return Some(Item::Called(call, Tag(i0)));
        }
        self.rest = self.rest.get(7..).unwrap_or(&[]);
        let field = Field::try_from(first).ok();
        let index = usize::from(u16::from_le_bytes([i0, i1]));
        let value = u32::from_le_bytes([v0, v1, v2, v3]);
        Some(Item::Given(Put {
            field,
            index,
            value,
        }))
    }
}
