// A type's block by its states: its TYPE, its FINALs rising, its steps by kept types.
ghost use Rattle.std.specs.Prelude.{[], ◌∷◌, map, ◌<◌};
ghost use Rattle.sdtd.specs.Schema.{block_of, WithinLimits};
ghost use Rattle.sdtd.specs.Reduced.{steps_left, block_left};
ghost use Rattle.schema.specs.States.{members};
ghost use Rattle.schema.specs.Steps.{meant, left};
ghost use Rattle.schema.specs.Value.{meaning};
ghost use Rattle.command.specs.Command.{file_of};
ghost use Rattle.text.specs.Page.{Lays};
ghost use Rattle.schema_writer.specs.Left.{step_command, block_commands};
ghost use Rattle.schema_writer.specs.Laying.{kept_by};

use crate::kept::Kept;
use crate::put::put_command;
use command::Command;
use schema::{Schema, StateSet, Step, Steps};
use sdtd::{Tag, TypeNo};
use text::Page;

// Puts a FINAL for each state of the set, rising.
fn put_finals(page: &mut Page<'_>, accepting: StateSet)
    ensures { Lays page.old (file_of (map Command.Final (members accepting.0))) page.new }
{
    for q in accepting.states() {
        put_command(page, Command::Final(q));
    }
}

// Puts the step, if its type is kept, with the type's new number.
fn put_step(page: &mut Page<'_>, step: Step, kept: &Kept)
    ensures { Lays page.old
        (file_of (map step_command (steps_left (kept_by kept.now.kept) (meant step ∷ [])))) page.new }
{
    if kept.has_type(step.by) {
        put_command(
            page,
            kept.relabelled(Command::Step(step.from, step.by, step.to)),
        );
    }
}

// Puts the steps by kept types.
fn put_steps(page: &mut Page<'_>, steps: Steps<'_>, kept: &Kept)
    ensures { Lays page.old
        (file_of (map step_command (steps_left (kept_by kept.now.kept) (left steps.entry)))) page.new }
{
    for step in steps {
        put_step(page, step, kept);
    }
}

// Puts the block of a type by its states, without the steps by types that are not kept.
pub(crate) fn put_block(page: &mut Page<'_>, schema: &Schema, a: TypeNo, kept: &Kept)
    requires { WithinLimits (meaning schema.now) × (a.0 < schema.now.types) }
    ensures { Lays page.old
        (file_of (block_commands (block_left (kept_by kept.now.kept) (block_of (meaning schema.now) a.0)))) page.new }
{
    let i = usize::from(a.0);
    put_command(
        page,
        Command::TypeBlock(Tag(schema.tag[i]), schema.states[i]),
    );
    put_finals(page, StateSet(schema.accepting[i]));
    put_steps(page, schema.steps_in(schema.span(a)), kept);
}
