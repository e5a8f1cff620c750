// Opening, closing and finish on a lent reading, which is moved on by one event. Each calls the method by value.
ghost use Rattle.sdtd.specs.Tree.{plain, nil};
ghost use Rattle.sdtd.specs.Document.{opening, closing, finish};
ghost use Rattle.schema.specs.Value.{meaning};
ghost use Rattle.reading.specs.Questions.{CallMeans, gives};
ghost use Rattle.reading.specs.Calls.{typed_of, taken_of};

use crate::value::Reading;
use schema::Schema;
use sdtd::{Refused, Tag, TypeNo};

// An opening of the tag, plainly.
pub fn open_lent(reading: &mut Reading, schema: &Schema, tag: Tag) -> Result<TypeNo, Refused>
    ensures { CallMeans (meaning schema.now) reading.old (opening plain tag.0) (gives (typed_of result) reading.new) }
{
    let next = reading.open(schema, tag);
    *reading = next.reading;
    next.answer
}

// An opening of the tag as nil.
pub fn open_nil_lent(reading: &mut Reading, schema: &Schema, tag: Tag) -> Result<TypeNo, Refused>
    ensures { CallMeans (meaning schema.now) reading.old (opening nil tag.0) (gives (typed_of result) reading.new) }
{
    let next = reading.open_nil(schema, tag);
    *reading = next.reading;
    next.answer
}

// A closing of the tag.
pub fn close_lent(reading: &mut Reading, schema: &Schema, tag: Tag) -> Result<(), Refused>
    ensures { CallMeans (meaning schema.now) reading.old (closing tag.0) (gives (taken_of result) reading.new) }
{
    let next = reading.close(schema, tag);
    *reading = next.reading;
    next.answer
}

// The finish.
pub fn finish_lent(reading: &mut Reading, schema: &Schema) -> Result<(), Refused>
    ensures { CallMeans (meaning schema.now) reading.old finish (gives (taken_of result) reading.new) }
{
    let next = reading.finish(schema);
    *reading = next.reading;
    next.answer
}
