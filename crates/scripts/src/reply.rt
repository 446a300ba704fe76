// Writes the reply to a line at the end of a Vec.
ghost use Rattle.std.specs.Prelude.{◌≡◌, [], ◌∷◌, ◌++◌, take, codes, decimal, OnOk};
ghost use Rattle.text.specs.Hex.{hex_of};
ghost use Rattle.history.specs.Law.{report_at};
ghost use Rattle.scripts.specs.Calls.{numbers_of};
ghost use Rattle.scripts.specs.Reply.{spaced, refused, answered, metered, stated, made};

use node::{Answer, Fields, Outcome, Report};
use refusals::Refusal;
use std::alloc::AllocError;
use text::{put_decimal, put_hex};

// Each number after a space.
fn put_spaced(out: &mut Vec<u8>, numbers: &[u64]) -> Result<(), AllocError>
    ensures { OnOk result (out.new.items ≡ out.old.items ++ spaced numbers.now) }
{
    for n in numbers {
        out.push(b' ')?;
        put_decimal(out, *n)?;
    }
    Ok(())
}

// `no` and the refusal's number.
pub(crate) fn put_refusal(out: &mut Vec<u8>, refusal: Refusal) -> Result<(), AllocError>
    ensures { OnOk result (out.new.items ≡ out.old.items ++ refused refusal) }
{
    out.extend_from_slice(b"no")?;
    put_spaced(out, &[u64::from(u8::from(refusal))])
}

// A word, and bytes in hexadecimal.
fn put_bytes(out: &mut Vec<u8>, word: &[u8], bytes: &[u8]) -> Result<(), AllocError>
    ensures { OnOk result (out.new.items ≡ out.old.items ++ (word.now ++ hex_of bytes.now)) }
{
    out.extend_from_slice(word)?;
    put_hex(out, bytes)
}

// The first bytes of a place, or all of it.
fn put_front(out: &mut Vec<u8>, word: &[u8], place: &[u8], n: usize) -> Result<(), AllocError>
    ensures { OnOk result (out.new.items ≡ out.old.items ++ (word.now ++ hex_of (take n place.now))) }
{
    if n < place.len() {
        put_bytes(out, word, &place[0..n])
    } else {
        put_bytes(out, word, place)
    }
}

fn put_order(out: &mut Vec<u8>, order: Fields) -> Result<(), AllocError>
    ensures { OnOk result (out.new.items ≡ out.old.items ++ (codes "order" ++ spaced (numbers_of order))) }
{
    out.extend_from_slice(b"order")?;
    let numbers = [
        u64::from(order.slot),
        u64::from(order.number),
        u64::from(order.kind),
        u64::from(order.level),
        u64::from(order.place),
        u64::from(order.size),
    ];
    put_spaced(out, &numbers)
}

// The answer to a call, where tags have t bytes.
pub(crate) fn put_answer(out: &mut Vec<u8>, t: usize, answer: Answer) -> Result<(), AllocError>
    ensures { OnOk result (out.new.items ≡ out.old.items ++ answered t answer) }
{
    match answer {
        Err(refusal) => put_refusal(out, refusal),
        Ok(Outcome::Done) => out.extend_from_slice(b"ok"),
        Ok(Outcome::Tag(place)) => put_front(out, b"tag ", &place, t),
        Ok(Outcome::Verdict(true)) => out.extend_from_slice(b"right"),
        Ok(Outcome::Verdict(false)) => out.extend_from_slice(b"wrong"),
        Ok(Outcome::Frame(frame)) => put_bytes(out, b"frame ", frame.bytes()),
        Ok(Outcome::Given(order)) => put_order(out, order),
    }
}

// Level, taken, carried and declined.
pub(crate) fn put_state(out: &mut Vec<u8>, report: Report) -> Result<(), AllocError>
    ensures { OnOk result (out.new.items ≡ out.old.items ++ stated report) }
{
    put_decimal(out, u64::from(report.level))?;
    put_spaced(out, &[report.taken, report.carried, report.declined])
}
