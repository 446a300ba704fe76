// The lines of an input, and what each says.
ghost use Rattle.std.specs.Prelude.{◌≡◌, map, IfOk};
ghost use Rattle.std.specs.Option.{option_map};
ghost use Rattle.scripts.specs.Form.{said_by};
ghost use Rattle.scripts.specs.Script.{lines_of, script_of};
ghost use Rattle.scripts.specs.Told.{told};

use crate::command::Command;
use crate::read::{Unread, command_in};
use std::alloc::{AllocError, Global};
use text::split;

// Nothing after the last newline is no line.
fn lines_in(heap: Global, input: &[u8]) -> Result<Vec<&[u8]>, AllocError>
    ensures { IfOk result (λ v. map (λ l. l.now) v.items ≡ lines_of input.now) }
{
    let mut lines = split(heap, input, b'\n')?;
    let n = lines.len();
    if n > 0 && lines[n - 1].len() == 0 {
        lines.truncate(n - 1);
    }
    Ok(lines)
}

// What a line says; nothing where it is of another form.
fn command_or_none(heap: Global, line: &[u8]) -> Result<Option<Command>, AllocError>
    ensures { IfOk result (λ o. option_map told o ≡ said_by line.now) }
{
    match command_in(heap, line) {
        Ok(command) => Ok(Some(command)),
        Err(Unread::OtherForm) => Ok(None),
        Err(Unread::NoMemory(e)) => Err(e),
    }
}

fn commands_in(heap: Global, lines: &[&[u8]]) -> Result<Vec<Option<Command>>, AllocError>
    ensures { IfOk result (λ v. map (option_map told) v.items ≡ map said_by (map (λ l. l.now) lines.now)) }
{
    let mut commands = Vec::new(heap);
    for line in lines {
        commands.push(command_or_none(heap, line)?)?;
    }
    Ok(commands)
}

// What each line of the input says.
pub(crate) fn script_in(heap: Global, input: &[u8]) -> Result<Vec<Option<Command>>, AllocError>
    ensures { IfOk result (λ v. map (option_map told) v.items ≡ script_of input.now) }
{
    let lines = lines_in(heap, input)?;
    commands_in(heap, &lines)
}
