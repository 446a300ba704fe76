// Reads a line as a command: the verb, and each field by the form that the verb asks for.
ghost use Rattle.std.specs.Prelude.{◌≡◌, [], map, Some};
ghost use Rattle.text.specs.Decimal.{number_of};
ghost use Rattle.text.specs.Hex.{bytes_of};
ghost use Rattle.scripts.specs.declared.read.Unread.TheVariants.{NoMemory};
ghost use Rattle.scripts.specs.Form.{said, limited, with_number, with_bytes, with_field, with_fields, form_of, said_in, said_by};
ghost use Rattle.scripts.specs.Told.{told, drafted, ReadAs};

use crate::command::{Command, Draft};
use crate::verb::{Field, Verb, verb_of};
use std::alloc::{AllocError, Global};
use text::{bytes_in, number_in, split};

// The longest line that is read.
const LINE_BYTES: usize = 65536;

// Why no command was read of a line.
#[derive(Clone, Copy)]
pub(crate) enum Unread {
    OtherForm,
    NoMemory(AllocError),
}

impl From<AllocError> for Unread {
    ghost from_gives = { λ e u. u ≡ NoMemory e };

    fn from(e: AllocError) -> Unread {
        Unread::NoMemory(e)
    }
}

// A number up to a limit.
fn limited_number(text: &[u8], most: u64) -> Option<u64>
    ensures { result ≡ limited most (number_of text.now) }
{
    number_in(text).filter(|n| *n <= most)
}

fn add_number(draft: &mut Draft, most: u64, text: &[u8]) -> Result<(), Unread>
    ensures { ReadAs (λ _. drafted draft.new) result (with_number (drafted draft.old) (limited most (number_of text.now))) }
{
    let n = limited_number(text, most).ok_or(Unread::OtherForm)?;
    draft.numbers.push(n).map_err(AllocError::from)?;
    Ok(())
}

fn add_bytes(heap: Global, draft: &mut Draft, text: &[u8]) -> Result<(), Unread>
    ensures { ReadAs (λ _. drafted draft.new) result (with_bytes (drafted draft.old) (bytes_of text.now)) }
{
    draft.bytes = bytes_in(heap, text)?.ok_or(Unread::OtherForm)?;
    Ok(())
}

fn add_field(heap: Global, draft: &mut Draft, field: Field, text: &[u8]) -> Result<(), Unread>
    ensures { ReadAs (λ _. drafted draft.new) result (with_field (drafted draft.old) field text.now) }
{
    match field {
        Field::Number(most) => add_number(draft, most, text),
        Field::Bytes => add_bytes(heap, draft, text),
    }
}

// A verb, and the texts of its fields.
fn fields_in(heap: Global, verb: Verb, texts: &[&[u8]]) -> Result<Command, Unread>
    ensures { ReadAs told result (with_fields (Some (said verb [] [])) (form_of verb) (map (λ t. t.now) texts.now)) }
{
    let form = verb.form();
    if texts.len() != form.len() {
        return Err(Unread::OtherForm);
    }
    let mut draft = Draft {
        verb,
        numbers: Vec::new(heap),
        bytes: Vec::new(heap),
    };
    for (field, text) in form.iter().zip(texts) {
        add_field(heap, &mut draft, *field, text)?;
    }
    let Draft {
        verb,
        numbers,
        bytes,
    } = draft;
    Ok(Command {
        verb,
        numbers,
        bytes,
    })
}

// The words of a line.
fn words_in(heap: Global, words: &[&[u8]]) -> Result<Command, Unread>
    ensures { ReadAs told result (said_in (map (λ w. w.now) words.now)) }
{
    let [word, texts @ ..] = words else {
        return Err(Unread::OtherForm);
    };
    let verb = verb_of(word).ok_or(Unread::OtherForm)?;
    fields_in(heap, verb, texts)
}

// What a line says, if it is of a form, and not too long.
pub(crate) fn command_in(heap: Global, line: &[u8]) -> Result<Command, Unread>
    ensures { ReadAs told result (said_by line.now) }
{
    if line.len() > LINE_BYTES {
        return Err(Unread::OtherForm);
    }
    let words = split(heap, line, b' ')?;
    words_in(heap, &words)
}
