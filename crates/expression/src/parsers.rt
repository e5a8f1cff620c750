// The parsers of choice, sequence and factor. Each takes the file and a place, the number of brackets open and of uses before, and the
// tables.
ghost use Rattle.std.specs.Prelude.{◌≡◌};
ghost use Rattle.command.specs.Command.{command_at};
ghost use Rattle.expression.specs.Parsing.{BracketSays, RepeatSays, ChoiceSays, SequenceSays, FactorSays};

use crate::parsed::Parsed;
use crate::parts::{Factor, divides, ends_bracket, opens, repeats};
use crate::tables::Tables;
use sdtd::{Refusal, Refused};

// "23 for brackets deeper than 16"
const BRACKETS: u8 = 16;

// The choice inside a bracket, and its 31.
fn closed(file: &[u8], inner: Parsed) -> Result<Parsed, Refusal>
    ensures { BracketSays (command_at file.now inner.at) inner result }
{
    ends_bracket(file, inner.at)?;
    Ok(Parsed {
        at: inner.at + 1,
        ..inner
    })
}

// A factor, and the one 34 after it if there is one.
fn repeated(file: &[u8], factor: Parsed, tables: &mut Tables) -> Parsed
    ensures { RepeatSays file.now factor tables.old tables.new result }
{
    if !repeats(file, factor.at) {
        return factor;
    }
    tables.link(factor.last, factor.first);
    Parsed {
        at: factor.at + 1,
        nullable: true,
        ..factor
    }
}

// A choice: its sequences, with 33 between them. `sequence` is called at one place only: so the compiler makes one function of the three
// parsers, and a call is left only for a bracket.
#[cycle(choice_factor_sequence)]
pub(crate) fn choice<'a>(
    file: &'a [u8],
    at: usize,
    depth: u8,
    uses: u8,
    tables: &'a mut Tables,
) -> Result<Parsed, Refusal>
    ensures { ChoiceSays file.now at depth uses tables.old tables.new result }
{
    let mut read = Parsed::nothing(at, uses, false);
    let mut from = at;
    loop {
        let other = sequence(file, from, depth, read.uses, tables)?;
        read = read.or(other);
        if !divides(file, read.at) {
            return Ok(read);
        }
        from = read.at + 1;
    }
}

// A sequence: its factors.
#[cycle(choice_factor_sequence)]
fn sequence<'a>(
    file: &'a [u8],
    at: usize,
    depth: u8,
    uses: u8,
    tables: &'a mut Tables,
) -> Result<Parsed, Refusal>
    ensures { SequenceSays file.now at depth uses tables.old tables.new result }
{
    let mut read = Parsed::nothing(at, uses, true);
    while let Some(one) = factor(file, read.at, depth, read.uses, tables)? {
        tables.link(read.last, one.first);
        read = read.then(one);
    }
    Ok(read)
}

// A factor, if one begins at the place: a 32, or a 30, a choice and a 31; and one 34 after it.
#[cycle(choice_factor_sequence)]
fn factor<'a>(
    file: &'a [u8],
    at: usize,
    depth: u8,
    uses: u8,
    tables: &'a mut Tables,
) -> Result<Option<Parsed>, Refusal>
    ensures { FactorSays file.now at depth uses tables.old tables.new result }
{
    match opens(file, at) {
        Some(Factor::OneType(j)) => {
            let read = tables.one_use(at, j, uses)?;
            Ok(Some(repeated(file, read, tables)))
        }
        Some(Factor::Bracket) => {
            if BRACKETS <= depth {
                return Err(Refused::TooManyBrackets.at(at));
            }
            let inner = choice(file, at + 1, depth + 1, uses, tables)?;
            let read = closed(file, inner)?;
            Ok(Some(repeated(file, read, tables)))
        }
        None => Ok(None),
    }
}
