// The lines of the openings taken.
ghost use Rattle.text.specs.Page.{Lays};
ghost use Rattle.events.specs.Events.{events_of};
ghost use Rattle.events.specs.Outline.{outline};
ghost use Rattle.report.specs.Text.{opening_lines};

use crate::lines::put_opening;
use events::{Cursor, next_opening};
use sdtd::TypeNo;
use text::Page;

// Puts a line for each type: the openings of the events in order, as far as there are any.
pub(crate) fn put_openings(page: &mut Page<'_>, events: &[u8], types: &[u8])
    ensures { Lays page.old (opening_lines types.now (outline 0 (events_of events.now))) page.new }
{
    let mut cursor = Cursor { at: 0, level: 0 };
    for type_no in types {
        let Some((tag, next)) = next_opening(events, cursor) else {
            return;
        };
        put_opening(page, next.level, tag, TypeNo(*type_no));
        cursor = next;
    }
}
