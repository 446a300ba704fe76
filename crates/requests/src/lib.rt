// Requests for tags, one to a line, and the replies to them. A line gives an algorithm, a hash, the tag's length, a key
// and a message; the reply has the tag and the rounds that it took, or the number of the refusal, or `?` for a line of
// another form. A whole input comes in chunks, which may be cut anywhere: `Lines` holds the line that is not yet ended.
#![tactic(auto)]

ghost use Rattle.std.specs.Prelude.{◌≡◌, true, [], ◌++◌, is_ok, IfOk, if◌then◌else◌, OnOk};
ghost use Rattle.std.specs.List.{flat_map};
ghost use Rattle.text.specs.Room.{HasRoom};
ghost use Rattle.requests.specs.Input.{replies, transcript, unended};
ghost use Rattle.requests.specs.Reply.{reply};
ghost use Rattle.requests.specs.Stands.{Stands};

use form::{FIELD_BYTES, request_in};
pub use lines::Lines;
use reply::{REPLY_BYTES, put_reply};
use std::alloc::{AllocError, Global};

mod form;
mod lines;
mod reply;

// Replies to one line, which comes without its newline. Where memory is wanting, `out` is as it was;
// 86 free bytes suffice.
pub fn answer_line(line: &[u8], out: &mut Vec<u8>) -> Result<(), AllocError>
    ensures items { out.new.items ≡ (if is_ok result then out.old.items ++ reply line.now else out.old.items) }
    ensures succeeds { HasRoom out.old 86 → is_ok result ≡ true }
{
    out.reserve(REPLY_BYTES)?;
    let mut key = [0; FIELD_BYTES];
    let mut message = [0; FIELD_BYTES];
    put_reply(out, request_in(line, &mut key, &mut message));
    Ok(())
}

// All the replies to an input that comes in chunks.
pub fn answer_all(heap: Global, chunks: &[&[u8]]) -> Result<Vec<u8>, AllocError>
    ensures { IfOk result (λ v. v.items ≡ transcript (flat_map (λ c. c.now) chunks.now)) }
{
    let mut out = Vec::new(heap);
    let mut lines = Lines::new();
    feed_all(&mut lines, chunks, &mut out)?;
    lines.finish(&mut out)?;
    Ok(out)
}

// The chunks of an input from its start.
fn feed_all(lines: &mut Lines, chunks: &[&[u8]], out: &mut Vec<u8>) -> Result<(), AllocError>
    requires { Stands lines.old [] }
    ensures { OnOk result ((out.new.items ≡ out.old.items ++ replies (flat_map (λ c. c.now) chunks.now)) × Stands lines.new (unended (flat_map (λ c. c.now) chunks.now))) }
{
    for chunk in chunks {
        lines.feed(chunk, out)?;
    }
    Ok(())
}
