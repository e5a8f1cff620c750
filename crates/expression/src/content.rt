// The automaton of an expression in a file.
ghost use Rattle.std.specs.Prelude.{◌≡◌, cond, List, reverse};
ghost use Rattle.schema.specs.States.{insert};
ghost use Rattle.expression.specs.Answer.{automaton_read, ContentMeans};
ghost use Rattle.expression.specs.Content.{Name, content_at};
ghost use Rattle.expression.specs.Expression.{Expression};
ghost use Rattle.expression.specs.Parsing.{ReadAs, no_tables};

use crate::parsed::Parsed;
use crate::parsers::choice;
use crate::parts::ends;
use crate::tables::{STATE_NUMBERS, Tables};
use schema::StateSet;
use sdtd::Refusal;

// The automaton of an expression.
#[derive(Clone, Copy)]
pub struct Automaton {
    // the place of the 3F
    pub end: usize,
    pub uses: u8,
    pub accepting: StateSet,
    // for each state the set of uses that its steps lead to; for state 0, of those that can come first
    pub next: [u32; STATE_NUMBERS],
    // of each use, from 1 on, the type that it names and the place of its 32; 0 past the uses
    pub types: [u8; STATE_NUMBERS],
    pub places: [usize; STATE_NUMBERS],
}

// The set, with state 0 where the empty word is accepted.
fn accepting_of(nullable: bool, last: StateSet) -> StateSet
    ensures { result.0 ≡ cond nullable (insert 0 last.0) last.0 }
{
    if nullable { last.with(0) } else { last }
}

// The automaton of an expression that is read whole.
fn automaton_of(read: Parsed, tables: Tables) -> Automaton
    ensures { (e : Expression) (names : List Name) → ReadAs 1 e names no_tables tables read
        → result ≡ automaton_read e (reverse names) read.at }
{
    let Tables {
        mut next,
        types,
        places,
    } = tables;
    next[0] = read.first.0;
    Automaton {
        end: read.at,
        uses: read.uses,
        accepting: accepting_of(read.nullable, read.last),
        next,
        types,
        places,
    }
}

// The automaton of the expression that begins at a place of the file.
pub fn read_content(file: &[u8], at: usize) -> Result<Automaton, Refusal>
    ensures { ContentMeans (content_at file.now at) result }
{
    let mut tables = Tables {
        next: [StateSet::NONE.0; STATE_NUMBERS],
        types: [0; STATE_NUMBERS],
        places: [0; STATE_NUMBERS],
    };
    let read = choice(file, at, 0, 0, &mut tables)?;
    ends(file, read.at, false)?;
    Ok(automaton_of(read, tables))
}
