// Writes replies at the end of a Vec that has room for them: bytes as upper-case hexadecimal, numbers in decimal,
// and what a request for a tag comes to.
ghost use Rattle.std.specs.Prelude.{◌≡◌, ◌≤◌, [], ◌∷◌, ◌++◌, length, Ok, Err};
ghost use Rattle.std.specs.Option.{option_map};
ghost use Rattle.text.specs.Room.{HasRoom};
ghost use Rattle.requests.specs.Read.{asked};
ghost use Rattle.requests.specs.Reply.{said_of, answer_to, said};

use crate::form::Request;
use refusals::Refusal;
use tags::make_tag;
use text::{put_decimal, put_hex};

// The longest tag.
const TAG_BYTES: usize = 32;

// The most bytes of a reply: the digits of a tag, a space, a number of 64 bits and the newline.
pub(crate) const REPLY_BYTES: usize = 2 * TAG_BYTES + 1 + 20 + 1;

// The tag, a space and the rounds; room for the newline is left.
fn put_tag(out: &mut Vec<u8>, tag: &[u8], rounds: u64)
    requires room { HasRoom out.old 86 }
    requires short { length tag.now ≤ 32 }
    ensures items { out.new.items ≡ out.old.items ++ said_of (Ok rounds) tag.now }
    ensures room { HasRoom out.new 1 }
{
    put_hex(out, tag).unwrap();
    out.push_reserved(b' ');
    put_decimal(out, rounds).unwrap();
}

// `no`, a space and the refusal's number; room for the newline is left.
fn put_refusal(out: &mut Vec<u8>, refusal: Refusal)
    requires { HasRoom out.old 86 }
    ensures items { out.new.items ≡ out.old.items ++ said_of (Err refusal) [] }
    ensures room { HasRoom out.new 1 }
{
    out.extend_from_slice(b"no ").unwrap();
    put_decimal(out, u64::from(u8::from(refusal))).unwrap();
}

// What the request comes to; room for the newline is left.
fn put_answer(out: &mut Vec<u8>, q: Request<'_>)
    requires { HasRoom out.old 86 }
    ensures items { out.new.items ≡ out.old.items ++ answer_to (asked q.entry) }
    ensures room { HasRoom out.new 1 }
{
    let mut place = [0; TAG_BYTES];
    let mut work = [0; 64];
    match make_tag(
        q.algorithm,
        q.hash,
        q.t,
        q.key,
        q.message,
        &mut place,
        &mut work,
    ) {
        Ok(rounds) => put_tag(out, &place[..q.t], rounds),
        Err(refusal) => put_refusal(out, refusal),
    }
}

// What the request comes to, or `?` for none; room for the newline is left.
fn put_said(out: &mut Vec<u8>, request: Option<Request<'_>>)
    requires { HasRoom out.old 86 }
    ensures items { out.new.items ≡ out.old.items ++ said (option_map asked request.entry) }
    ensures room { HasRoom out.new 1 }
{
    match request {
        Some(q) => put_answer(out, q),
        None => out.push_reserved(b'?'),
    }
}

// The same, and the newline.
pub(crate) fn put_reply(out: &mut Vec<u8>, request: Option<Request<'_>>)
    requires { HasRoom out.old 86 }
    ensures { out.new.items ≡ out.old.items ++ (said (option_map asked request.entry) ++ 10 ∷ []) }
{
    put_said(out, request);
    out.push_reserved(b'\n');
}
