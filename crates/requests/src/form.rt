// Reads a line. Five fields stand in it with one space between; three are numbers of one to three digits, two are
// upper-case hexadecimal pairs, or `-` for no byte. Each function answers `None` for a text of another form.
ghost use Rattle.std.specs.Prelude.{◌≡◌, ◌≤◌, length};
ghost use Rattle.std.specs.Option.{option_map};
ghost use Rattle.text.specs.Hex.{bytes_of};
ghost use Rattle.text.specs.Pieces.{pieces};
ghost use Rattle.requests.specs.Form.{number_of, asked_by, asked_of, request_of};
ghost use Rattle.requests.specs.Read.{fields_in, asked};

use text::{bytes_into, number_in, split_first};

// The longest line that is read.
const LINE_BYTES: usize = 1024;

// The most bytes that a field can hold.
pub(crate) const FIELD_BYTES: usize = LINE_BYTES / 2;

// The five fields, each as its text.
#[derive(Drop)]
struct Fields<'a> {
    algorithm: &'a [u8],
    hash: &'a [u8],
    t: &'a [u8],
    key: &'a [u8],
    message: &'a [u8],
}

// What a line asks for. Algorithm and hash are numbers: any of three digits makes a line, and the one-shot call asks of them.
#[derive(Clone, Copy)]
pub(crate) struct Request<'a> {
    pub(crate) algorithm: u32,
    pub(crate) hash: u32,
    pub(crate) t: usize,
    pub(crate) key: &'a [u8],
    pub(crate) message: &'a [u8],
}

#[tactic(auto, using(crate::proofs::Breaks::pieces_some))]
fn fields_of(line: &[u8]) -> Option<Fields<'_>>
    ensures { fields_in result (pieces 32 line.now) }
{
    let (algorithm, rest) = split_first(line, b' ')?;
    let (hash, rest) = split_first(rest, b' ')?;
    let (t, rest) = split_first(rest, b' ')?;
    let (key, message) = split_first(rest, b' ')?;
    split_first(message, b' ').is_none().then_some(Fields {
        algorithm,
        hash,
        t,
        key,
        message,
    })
}

// A number of one digit to three.
fn number_of(text: &[u8]) -> Option<u32>
    ensures { result ≡ number_of text.now }
{
    if text.len() > 3 {
        return None;
    }
    u32::try_from(number_in(text)?).ok()
}

impl Fields<'_> {
    // What the fields ask for. The key and the message stand in the two places.
    fn request<'a>(
        &self,
        key: &'a mut [u8; FIELD_BYTES],
        message: &'a mut [u8; FIELD_BYTES],
    ) -> Option<Request<'a>>
        requires { (length self.now.key.now ≤ 1024) × (length self.now.message.now ≤ 1024) }
        ensures { option_map asked result ≡ asked_by (number_of self.now.algorithm.now) (number_of self.now.hash.now) (number_of self.now.t.now) (bytes_of self.now.key.now) (bytes_of self.now.message.now) }
    {
        Some(Request {
            algorithm: number_of(self.algorithm)?,
            hash: number_of(self.hash)?,
            t: number_of(self.t)? as usize,
            key: bytes_into(self.key, key)?,
            message: bytes_into(self.message, message)?,
        })
    }
}

// What a line that is not too long asks for.
fn request_of<'a>(
    line: &[u8],
    key: &'a mut [u8; FIELD_BYTES],
    message: &'a mut [u8; FIELD_BYTES],
) -> Option<Request<'a>>
    requires { length line.now ≤ 1024 }
    ensures { option_map asked result ≡ asked_of line.now }
{
    fields_of(line)?.request(key, message)
}

// What a line asks for. Its key and its message stand in the two places.
pub(crate) fn request_in<'a>(
    line: &[u8],
    key: &'a mut [u8; FIELD_BYTES],
    message: &'a mut [u8; FIELD_BYTES],
) -> Option<Request<'a>>
    ensures { option_map asked result ≡ request_of line.now }
{
    if line.len() > LINE_BYTES {
        return None;
    }
    request_of(line, key, message)
}
