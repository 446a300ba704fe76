// A frame is a header of eight bytes, a body, and the tag of both. The header is bit fields, most significant first: version 3 bits,
// slot 3, kind 2, body length 8, address 16, number 32. A level has kind 0 and a body of one byte, 0 to 100; a sheet has kind 1 and
// a body of 0 to 255 bytes.
//
// The reader lends: a record's body is a part of the frame that was read, and nothing is copied. It asks its questions in a fixed order, and the
// first that is answered no is the refusal. The writer lays header and body at the front of a buffer, where the tag then follows.
#![tactic(auto)]

ghost use Rattle.std.specs.Prelude.{◌≡◌, ◌+◌, ◌/◌, ◌%◌, ◌≤◌, length, take, drop, IfOk};
ghost use Rattle.std.specs.Result.{result_err};
ghost use Rattle.refusals.specs.Questions.{first_refusal};
ghost use Rattle.frame.specs.Kinds.{kind_number};
ghost use Rattle.frame.specs.Layout.{header_of, signed_part, tag_in, Fitting};
ghost use Rattle.frame.specs.Reading.{body_questions, read_as, reads, tell, header_in, level_in, body_in};

use refusals::Refusal;

mod kind;
mod writing;

pub use kind::Kind;
pub use writing::{header_bytes, write_front};

// A frame's header, behind which the body stands.
pub const HEADER_BYTES: usize = 8;

const VERSION: u8 = 1;

const MOST_LEVEL: u8 = 100;

const MOST_BODY: usize = 255;

// The fields of a header, in their order. The kind is the number that stands there: the questions before 13 are asked of any.
#[derive(Clone, Copy)]
pub struct Header {
    pub version: u8,
    pub slot: u8,
    pub kind: u8,
    pub size: u8,
    pub address: u16,
    pub number: u32,
}

// What a frame says; the body is a part of the frame.
#[derive(Clone, Copy)]
pub enum Record<'a> {
    Level {
        header: Header,
        level: u8,
        body: &'a [u8],
    },
    Sheet {
        header: Header,
        body: &'a [u8],
    },
}

impl<'a> Record<'a> {
    pub fn header(self) -> Header
        ensures { result ≡ header_in self.entry }
    {
        match self {
            Record::Level { header, .. } => header,
            Record::Sheet { header, .. } => header,
        }
    }

    // The level, and 0 for a sheet.
    pub fn level(self) -> u8
        ensures { result ≡ level_in self.entry }
    {
        match self {
            Record::Level { level, .. } => level,
            Record::Sheet { .. } => 0,
        }
    }

    pub fn body(self) -> &'a [u8]
        ensures { result.now ≡ body_in self.entry }
    {
        match self {
            Record::Level { body, .. } => body,
            Record::Sheet { body, .. } => body,
        }
    }
}

// Version, slot and kind, which share a header's first byte.
fn first_fields(first: u8) -> (u8, u8, u8)
    ensures version { result.0 ≡ first / 32 }
    ensures slot { result.1 ≡ first / 4 % 8 }
    ensures kind { result.2 ≡ first % 4 }
{
    (first / 32, first / 4 % 8, first % 4)
}

// The header's fields, and the rest of the frame.
#[tactic(auto, unfolding(crate::specs::Layout::header_of))]
fn read_header(frame: &[u8]) -> (Header, &[u8])
    requires { 8 ≤ length frame.now }
    ensures fields { result.0 ≡ header_of frame.now }
    ensures rest { result.1.now ≡ drop 8 frame.now }
    ensures fits { Fitting result.0 }
{
    let (version, slot, kind) = first_fields(frame[0]);
    let header = Header {
        version,
        slot,
        kind,
        size: frame[1],
        address: u16::from_be_bytes([frame[2], frame[3]]),
        number: u32::from_be_bytes([frame[4], frame[5], frame[6], frame[7]]),
    };
    let (_, rest) = frame.split_at(HEADER_BYTES);
    (header, rest)
}

// The questions on a kind and a body, 13 and 14, which a reader asks of a frame and a sealing call of what it is given. Where none is
// answered no: the kind.
pub fn check_body(kind: u8, body: &[u8]) -> Result<Kind, Refusal>
    ensures refusal { result_err result ≡ first_refusal (body_questions kind body.now) }
    ensures kind { IfOk result (λ k. kind_number k ≡ kind) }
{
    let kind = Kind::try_from(kind)?;
    match (kind, body) {
        (Kind::Level, [level]) if *level <= MOST_LEVEL => Ok(kind),
        (Kind::Sheet, _) if body.len() <= MOST_BODY => Ok(kind),
        _ => Err(Refusal::Body),
    }
}

// The record of a header and what follows it, where a tag of `t` bytes ends the frame.
fn judge<'a>(header: Header, rest: &'a [u8], t: usize) -> Result<Record<'a>, Refusal>
    ensures { tell result ≡ read_as header (8 + length rest.now) (take header.size rest.now) t }
{
    let size = usize::from(header.size);
    if rest.len().checked_sub(size) != Some(t) {
        return Err(Refusal::FrameLength);
    }
    if header.version != VERSION {
        return Err(Refusal::Version);
    }
    let (body, _) = rest.split_at(size);
    match (check_body(header.kind, body)?, body) {
        (Kind::Level, [level]) => Ok(Record::Level {
            header,
            level: *level,
            body,
        }),
        _ => Ok(Record::Sheet { header, body }),
    }
}

// The record of a frame with a tag of `t` bytes, or the first question that is answered no: 16 on the frame's length, 17 on the version, 13
// on the kind, 14 on the body.
#[tactic(auto, using(crate::proofs::Read::whole, crate::proofs::Read::short, crate::proofs::Read::fits_still))]
pub fn read_record(frame: &[u8], t: usize) -> Result<Record<'_>, Refusal>
    ensures read { tell result ≡ reads frame.now t }
    ensures fits { IfOk result (λ x. Fitting (header_in x)) }
{
    if frame.len() < HEADER_BYTES {
        return Err(Refusal::FrameLength);
    }
    let (header, rest) = read_header(frame);
    judge(header, rest, t)
}

// How many bytes of a frame its header and body are.
#[tactic(auto, using(crate::proofs::Cut::take_min, crate::proofs::Cut::drop_min), unfolding(crate::specs::Layout::header_of, crate::specs::Layout::signed_part, crate::specs::Layout::tag_in))]
fn signed_length(frame: &[u8]) -> usize
    ensures within { result ≤ length frame.now }
    ensures signed { take result frame.now ≡ signed_part frame.now }
    ensures tag { drop result frame.now ≡ tag_in frame.now }
{
    if frame.len() < HEADER_BYTES {
        return frame.len();
    }
    (HEADER_BYTES + usize::from(frame[1])).min(frame.len())
}

// A frame's header and body, which the tag is of, and the tag. Where the frame is too short for its body, there is no tag.
pub fn split_tag(frame: &[u8]) -> (&[u8], &[u8])
    ensures signed { result.0.now ≡ signed_part frame.now }
    ensures tag { result.1.now ≡ tag_in frame.now }
{
    frame.split_at(signed_length(frame))
}
