// Values made up: one field or entry of a schema or a reading is put.
//
// A field that is no table passes over the index; an index past the end of its table changes nothing. A first root put into a value of no root is
// its one root.
use crate::items::{Item, Items, Put};
use reading::Reading;
use schema::Schema;

#[derive(Clone, Copy)]
pub(crate) enum Field {
    Tags,
    Types,
    Root,
    Tag,
    States,
    Accepting,
    Steps,
    From,
    By,
    To,
    Roots,
    Nillable,
    Depth,
    Rooted,
    Finished,
    LevelType,
    LevelSet,
}

impl TryFrom<u8> for Field {
    type Error = ();

    fn try_from(first: u8) -> Result<Field, ()> {
        match first {
            0x10 => Ok(Field::Tags),
            0x11 => Ok(Field::Types),
            0x12 => Ok(Field::Root),
            0x13 => Ok(Field::Tag),
            0x14 => Ok(Field::States),
            0x15 => Ok(Field::Accepting),
            0x16 => Ok(Field::Steps),
            0x17 => Ok(Field::From),
            0x18 => Ok(Field::By),
            0x19 => Ok(Field::To),
            0x1a => Ok(Field::Roots),
            0x1b => Ok(Field::Nillable),
            0x20 => Ok(Field::Depth),
            0x21 => Ok(Field::Rooted),
            0x22 => Ok(Field::Finished),
            0x23 => Ok(Field::LevelType),
            0x24 => Ok(Field::LevelSet),
            _ => Err(()),
        }
    }
}

// Puts the entry, if the table has it.
fn set<T: Copy + Drop>(table: &mut [T], index: usize, value: T) {
    if let Some(entry) = table.get_mut(index) {
        *entry = value;
    }
}

// What a case works on.
#[derive(Clone, Copy)]
pub(crate) struct Held {
    pub schema: Schema,
    pub reading: Reading,
}

impl Held {
    pub(crate) fn new(schema: Schema) -> Held {
        Held {
            schema,
            reading: Reading::fresh(),
        }
    }

    // Puts the entry of an item.
    pub(crate) fn put(&mut self, put: Put) {
        let Put {
            field,
            index,
            value,
        } = put;
        let Some(field) = field else { return };
        let schema = &mut self.schema;
        let reading = &mut self.reading;
        // the remainders fit
        let byte = (value % 0x100) as u8;
        let half = (value % 0x1_0000) as u16;
        match field {
            Field::Tags => schema.tags = byte,
            Field::Types => schema.types = byte,
            Field::Root => self.put_root(index, byte),
            Field::Tag => set(&mut schema.tag, index, byte),
            Field::States => set(&mut schema.states, index, byte),
            Field::Accepting => set(&mut schema.accepting, index, value),
            Field::Steps => set(&mut schema.steps, index, half),
            Field::From => set(&mut schema.from, index, byte),
            Field::By => set(&mut schema.by, index, byte),
            Field::To => set(&mut schema.to, index, byte),
            Field::Roots => schema.roots = byte,
            Field::Nillable => set(&mut schema.nillable, index, value != 0),
            Field::Depth => reading.depth = byte,
            Field::Rooted => reading.rooted = value != 0,
            Field::Finished => reading.finished = value != 0,
            Field::LevelType => set(&mut reading.types, index, byte),
            Field::LevelSet => set(&mut reading.sets, index, value),
        }
    }

    // Puts the root; the first where there is none is the one root.
    fn put_root(&mut self, index: usize, root: u8) {
        set(&mut self.schema.root, index, root);
        if index == 0 && self.schema.roots == 0 {
            self.schema.roots = 1;
        }
    }
}

// The schema with the entries that all items put.
pub(crate) fn made_up(schema: Schema, items: &[u8]) -> Schema {
    let mut held = Held::new(schema);
    for item in (Items { rest: items }) {
        if let Item::Given(put) = item {
            held.put(put);
        }
    }
    held.schema
}
