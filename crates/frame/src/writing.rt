// The writer of a frame: the header's eight bytes, and header and body at the front of a buffer, where the tag then follows.
ghost use Rattle.std.specs.Prelude.{◌≡◌, ◌+◌, ◌*◌, ◌%◌, ◌≤◌, ◌++◌, length, drop, is_ok};
ghost use Rattle.std.specs.Result.{result_err};
ghost use Rattle.refusals.specs.Questions.{first_refusal};
ghost use Rattle.frame.specs.Layout.{bytes_of_header};
ghost use Rattle.frame.specs.Sealing.{fits_within, front_questions, front_laid, LayoutLaws};

use super::{HEADER_BYTES, Header, VERSION};
use refusals::Refusal;

// A header's first byte. A field that is too wide loses its high bits.
fn first_byte(version: u8, slot: u8, kind: u8) -> u8
    ensures { result ≡ version % 8 * 32 + slot % 8 * 4 + kind % 4 }
{
    version % 8 * 32 + slot % 8 * 4 + kind % 4
}

// The eight bytes of a header, and with them the laws of the layout: what is written is read back. Version, slot and kind lose the bits that
// a header has no place for.
#[tactic(auto, using(crate::proofs::Law::laws), unfolding(crate::specs::Layout::bytes_of_header))]
pub fn header_bytes(header: Header) -> [u8; 8]
    ensures bytes { result ≡ bytes_of_header header }
    ensures laws { LayoutLaws }
{
    let first = first_byte(header.version, header.slot, header.kind);
    let [a, b] = header.address.to_be_bytes();
    let [p, q, r, s] = header.number.to_be_bytes();
    [first, header.size, a, b, p, q, r, s]
}

// Lays header and body at the front of `out`; the bytes past them keep their value.
#[tactic(auto, using(crate::proofs::Cut::laid, crate::proofs::Bytes::header_length))]
fn put_front(header: Header, body: &[u8], out: &mut [u8])
    requires { 8 + length body.now ≤ length out.old }
    ensures { out.new ≡ bytes_of_header header ++ (body.now ++ drop (8 + length body.now) out.old) }
{
    let end = HEADER_BYTES + body.len();
    out[0..HEADER_BYTES].copy_from_slice(&header_bytes(header));
    out[HEADER_BYTES..end].copy_from_slice(body);
}

// Writes the header for a body, and the body, at the front of `out`; the bytes past them keep their value. Slot and kind lose the bits that
// a header has no place for. Nothing is written where the body is longer than 255 bytes, the refusal 14, or `out` has no room, 6.
pub fn write_front(
    slot: u8,
    kind: u8,
    address: u16,
    number: u32,
    body: &[u8],
    out: &mut [u8],
) -> Result<(), Refusal>
    ensures done { is_ok result ≡ fits_within body.now out.old }
    ensures refusal { result_err result ≡ first_refusal (front_questions body.now out.old) }
    ensures out { out.new ≡ front_laid slot kind address number body.now out.old }
{
    let size = u8::try_from(body.len()).map_err(|_| Refusal::Body)?;
    if out.len() < HEADER_BYTES + body.len() {
        return Err(Refusal::Room);
    }
    let header = Header {
        version: VERSION,
        slot,
        kind,
        size,
        address,
        number,
    };
    put_front(header, body, out);
    Ok(())
}
