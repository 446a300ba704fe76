// Bytes as upper-case hexadecimal pairs, read and written.
ghost use Rattle.std.specs.Prelude.{◌≡◌, ◌+◌, ◌*◌, ◌/◌, ◌<◌, ◌≤◌, true, None, ◌++◌, length, IfSome, is_ok, IfOk, if◌then◌else◌, nat_le, vec_items, vec_len, vec_capacity};
ghost use Rattle.std.specs.Option.{option_map};
ghost use Rattle.text.specs.Hex.{hex_value_of, pair_of, pairs_of, bytes_of, hex_digit_of, hex_of};
ghost use Rattle.text.specs.Room.{HasRoom};

use std::alloc::{AllocError, Global};

// Unlike `char::to_digit` it takes no small letters.
fn hex_value(c: u8) -> Option<u8>
    ensures value { result ≡ hex_value_of c }
    ensures small { IfSome result (λ v. v < 16) }
{
    match c {
        b'0'..=b'9' => Some(c - b'0'),
        b'A'..=b'F' => Some(c - b'A' + 10),
        _ => None,
    }
}

// The byte of two hexadecimal digits.
pub fn pair_value(high: u8, low: u8) -> Option<u8>
    ensures { result ≡ pair_of high low }
{
    Some(hex_value(high)? * 16 + hex_value(low)?)
}

// The bytes of hexadecimal pairs, into a place that they fill.
fn read_pairs(text: &[u8], place: &mut [u8]) -> Option<()>
    requires { length place.old ≡ length text.now / 2 }
    ensures { option_map (λ _. place.new) result ≡ pairs_of text.now }
{
    let (pairs, odd) = text.as_chunks::<2>();
    if !odd.is_empty() {
        return None;
    }
    // by its place, since a zip with `iter_mut` does not tell what was written
    for (i, [high, low]) in pairs.iter().enumerate() {
        place[i] = pair_value(*high, *low)?;
    }
    Some(())
}

// The same, or `-` for no byte.
fn read_bytes(text: &[u8], place: &mut [u8]) -> Option<()>
    requires { length place.old ≡ length text.now / 2 }
    ensures { option_map (λ _. place.new) result ≡ bytes_of text.now }
{
    match text {
        [] => None,
        [c] => (*c == b'-').then_some(()),
        _ => read_pairs(text, place),
    }
}

// The bytes that a text writes as pairs, or as `-` where there are none, in the front of `place`; nothing where the text
// is of another form, or `place` is shorter.
pub fn bytes_into<'a>(text: &[u8], place: &'a mut [u8]) -> Option<&'a [u8]>
    ensures { option_map (λ b. b.now) result ≡ (if nat_le (length text.now / 2) (length place.old) then bytes_of text.now else None) }
{
    let front = place.get_mut(..text.len() / 2)?;
    read_bytes(text, front)?;
    Some(front)
}

// How many bytes are read before room is made for them.
const BLOCK: usize = 64;

// The bytes of hexadecimal pairs, on the heap. Room is made for a block of bytes once its pairs have been read, so what
// stands after a fault asks for none.
fn pairs_in(heap: Global, text: &[u8]) -> Result<Option<Vec<u8>>, AllocError>
    ensures { IfOk result (λ o. option_map vec_items o ≡ pairs_of text.now) }
{
    if text.len() % 2 != 0 {
        return Ok(None);
    }
    let mut bytes = Vec::new(heap);
    let mut place = [0; BLOCK];
    for pairs in text.chunks(2 * BLOCK) {
        let front = &mut place[..pairs.len() / 2];
        if read_pairs(pairs, front).is_none() {
            return Ok(None);
        }
        bytes.extend_from_slice(front)?;
    }
    Ok(Some(bytes))
}

// The same bytes, on the heap.
pub fn bytes_in(heap: Global, text: &[u8]) -> Result<Option<Vec<u8>>, AllocError>
    ensures { IfOk result (λ o. option_map vec_items o ≡ bytes_of text.now) }
{
    match text {
        [] => Ok(None),
        [c] => Ok((*c == b'-').then_some(Vec::new(heap))),
        _ => pairs_in(heap, text),
    }
}

fn hex_digit(d: u8) -> u8
    requires { d < 16 }
    ensures { result ≡ hex_digit_of d }
{
    if d < 10 { b'0' + d } else { b'A' - 10 + d }
}

// The pairs of some bytes at the end of `out`, which has room for them.
fn put_pairs(out: &mut Vec<u8>, bytes: &[u8])
    requires { HasRoom out.old (2 * length bytes.now) }
    ensures items { out.new.items ≡ out.old.items ++ hex_of bytes.now }
    ensures len { vec_len out.new ≡ vec_len out.old + 2 * length bytes.now }
    ensures capacity { vec_capacity out.new ≡ vec_capacity out.old }
{
    for b in bytes {
        out.push_reserved(hex_digit(*b / 16));
        out.push_reserved(hex_digit(*b % 16));
    }
}

// The pairs of some bytes at the end of `out`, which is as it was where memory is wanting; room for the pairs suffices.
pub fn put_hex(out: &mut Vec<u8>, bytes: &[u8]) -> Result<(), AllocError>
    ensures items { out.new.items ≡ (if is_ok result then out.old.items ++ hex_of bytes.now else out.old.items) }
    ensures len { vec_len out.new ≤ vec_len out.old + 2 * length bytes.now }
    ensures capacity { vec_capacity out.old ≤ vec_capacity out.new }
    ensures succeeds { HasRoom out.old (2 * length bytes.now) → is_ok result ≡ true }
{
    out.reserve(2 * bytes.len())?;
    put_pairs(out, bytes);
    Ok(())
}
