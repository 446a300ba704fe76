// A lamp node that is driven by lines of text: a node line makes it, each line after that is a call, and each line gets a
// reply. The lines become commands, the calls among them are run as one list, and the replies are written from the answers
// to the calls and from the reports on the node between them.
#![tactic(auto)]

ghost use Rattle.std.specs.Prelude.{IfOk};
ghost use Rattle.scripts.specs.Play.{Replied};

use answer::answer_lines;
use play::run_script;
use script::script_in;
use std::alloc::{AllocError, Global};

mod answer;
mod calls;
mod command;
mod making;
mod play;
mod read;
mod reply;
mod script;
mod stage;
mod verb;

// The replies to all the lines of an input.
pub fn answer_script(heap: Global, input: &[u8]) -> Result<Vec<u8>, AllocError>
    ensures { IfOk result (λ v. Replied input.now v.items) }
{
    let lines = script_in(heap, input)?;
    let log = run_script(heap, &lines)?;
    answer_lines(heap, &lines, &log)
}
