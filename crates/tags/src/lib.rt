// The one-shot call: the tag of a key and a message, by the numbers of algorithm and hash. The questions are asked
// in their order before anything is worked out, and the first no is the refusal.
#![tactic(auto)]

ghost use Rattle.std.specs.Prelude.{◌≡◌, length};
ghost use Rattle.std.specs.Result.{result_err};
ghost use Rattle.refusals.specs.Questions.{first_refusal};
ghost use Rattle.mac.specs.Promises.{wiped};
ghost use Rattle.tags.specs.Kinds.{Found, hash_by, algorithm_by, meaning_of, face_of};
ghost use Rattle.tags.specs.Asked.{written, Long};
ghost use Rattle.tags.specs.OneShot.{questions_of, OneShot};
ghost use Rattle.tags.specs.Tag.{answered, tag_of};

use hash::Hash;
use hmac::Hmac;
use mac::{Algorithm, Wipe};
use mdxmac::{MdxMac, ShortMac};
use refusals::Refusal;
use ripemd160::Ripemd160;
use sha_1::Sha1;
use sha256::Sha256;

#[derive(Clone, Copy)]
pub enum HashKind {
    OfRipemd160,
    OfSha1,
    OfSha256,
}

// The hash of a number: 1, 3 or 4.
impl TryFrom<u32> for HashKind {
    type Error = Refusal;

    ghost try_from_gives = { λ number r. Found (hash_by number) r };

    fn try_from(number: u32) -> Result<HashKind, Refusal> {
        match number {
            1 => Ok(HashKind::OfRipemd160),
            3 => Ok(HashKind::OfSha1),
            4 => Ok(HashKind::OfSha256),
            _ => Err(Refusal::Unknown),
        }
    }
}

#[derive(Clone, Copy)]
pub enum AlgorithmKind {
    OfMdxMac,
    OfHmac,
    OfShortMac,
}

// The algorithm of a number: 1, 2 or 3.
impl TryFrom<u32> for AlgorithmKind {
    type Error = Refusal;

    ghost try_from_gives = { λ number r. Found (algorithm_by number) r };

    fn try_from(number: u32) -> Result<AlgorithmKind, Refusal> {
        match number {
            1 => Ok(AlgorithmKind::OfMdxMac),
            2 => Ok(AlgorithmKind::OfHmac),
            3 => Ok(AlgorithmKind::OfShortMac),
            _ => Err(Refusal::Unknown),
        }
    }
}

// What a tag of t bytes is made of.
#[derive(Clone, Copy)]
struct Request<'a> {
    t: usize,
    key: &'a [u8],
    message: &'a [u8],
}

// Asks an algorithm over a hash the questions in their order.
fn ask<H: Hash, A: Algorithm<H>>(request: Request<'_>, room: usize) -> Result<(), Refusal>
    ensures { result_err result ≡ first_refusal (questions_of A.Algorithm.face H.Hash.meaning.added request.entry room) }
{
    let Request { t, key, message } = request;
    let row = A::row_of();
    if A::needs_added() && H::shape_of().added == 0 {
        return Err(Refusal::NoAddedWords);
    }
    if !row.key.has(key.len()) {
        return Err(Refusal::KeyLength);
    }
    if !row.tag.has(t) {
        return Err(Refusal::TagLength);
    }
    if message.len() > row.message {
        return Err(Refusal::MessageLength);
    }
    if t > room {
        return Err(Refusal::Room);
    }
    Ok(())
}

// Asks the questions; where none is answered no, makes key, run, piece and end. The hash's meter reads 0.
#[tactic(auto, unfolding(crate::specs::Asked::asked))]
fn answer<H: Hash, A: Algorithm<H>>(
    hash: &mut H,
    request: Request<'_>,
    out: &mut [u8],
    work: &mut [u8; 64],
) -> Result<u64, Refusal>
    requires { H.Hash.reading hash.old ≡ 0 }
    ensures { OneShot A.Algorithm.face H.Hash.meaning.added request.entry out.old out.new result }
{
    ask::<H, A>(request, out.len())?;
    let record = A::expand(hash, request.key, work)?;
    let mut run = A::begin(&record);
    A::add(hash, &mut run, request.message)?;
    A::end(hash, &mut run, request.t, out, work)?;
    Ok(hash.meter())
}

// The answer of an algorithm, by its kind, over a hash whose meter reads 0.
fn answer_by<H: Hash>(
    hash: &mut H,
    algorithm: AlgorithmKind,
    request: Request<'_>,
    out: &mut [u8],
    work: &mut [u8; 64],
) -> Result<u64, Refusal>
    requires { H.reading hash.old ≡ 0 }
    ensures { OneShot (face_of algorithm H.meaning) H.meaning.added request.entry out.old out.new result }
{
    match algorithm {
        AlgorithmKind::OfMdxMac => answer::<H, MdxMac>(hash, request, out, work),
        AlgorithmKind::OfHmac => answer::<H, Hmac>(hash, request, out, work),
        AlgorithmKind::OfShortMac => answer::<H, ShortMac>(hash, request, out, work),
    }
}

// The answer by the kinds of algorithm and hash, of a hash made for this call. A kind that is known when the program runs
// picks a type by a match here, and at each place that does something else with it: a trait for that would say no more.
fn make_by(
    algorithm: AlgorithmKind,
    hash: HashKind,
    request: Request<'_>,
    out: &mut [u8],
    work: &mut [u8; 64],
) -> Result<u64, Refusal>
    ensures { OneShot (face_of algorithm (meaning_of hash)) (meaning_of hash).added request.entry out.old out.new result }
{
    match hash {
        HashKind::OfRipemd160 => answer_by(&mut Ripemd160::new(), algorithm, request, out, work),
        HashKind::OfSha1 => answer_by(&mut Sha1::new(), algorithm, request, out, work),
        HashKind::OfSha256 => answer_by(&mut Sha256::new(), algorithm, request, out, work),
    }
}

// Writes the tag of t bytes and answers the rounds, as metered from 0; a refusal leaves the place to write as found.
// The work block is wiped either way. Algorithm and hash come as numbers, since whether there are such is the first question.
#[tactic(auto, unfolding(crate::specs::Tag::answered_by, crate::specs::Tag::tag_by))]
pub fn make_tag(
    algorithm: u32,
    hash: u32,
    t: usize,
    key: &[u8],
    message: &[u8],
    out: &mut [u8],
    work: &mut [u8; 64],
) -> Result<u64, Refusal>
    ensures answer { result ≡ answered algorithm hash t (length key.now) (length message.now) (length out.old) }
    ensures tag { out.new ≡ written result (tag_of algorithm hash t key.now message.now) t out.old }
    ensures long { Long result (tag_of algorithm hash t key.now message.now) t (length out.old) }
    ensures wiped { work.new ≡ wiped }
{
    let guard = Wipe { block: work };
    let algorithm = AlgorithmKind::try_from(algorithm)?;
    let hash = HashKind::try_from(hash)?;
    let request = Request { t, key, message };
    make_by(algorithm, hash, request, out, guard.block)
}
