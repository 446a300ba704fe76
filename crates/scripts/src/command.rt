// What a line says: its verb, its numbers in their order, and its bytes.
ghost use Rattle.std.specs.Prelude.{◌≡◌, true};
ghost use Rattle.scripts.specs.Form.{said, formed as wellFormed};

use crate::verb::Verb;

// A line that is still being read: its numbers and bytes are not yet those that the verb asks for.
#[derive(Drop)]
pub(crate) struct Draft {
    pub(crate) verb: Verb,
    pub(crate) numbers: Vec<u64>,
    pub(crate) bytes: Vec<u8>,
}

// The numbers and the bytes are those that the verb asks for.
#[derive(Drop)]
pub(crate) struct Command {
    pub(crate) verb: Verb,
    pub(crate) numbers: Vec<u64>,
    pub(crate) bytes: Vec<u8>,
    ghost formed: { wellFormed (said verb numbers.items bytes.items) ≡ true },
}
