// The tag of a request by the streaming interface: the key made ready, a run begun, the message joined piece by piece, and
// the run ended.
use crate::rows::Request;
use hash::Hash;
use hmac::Hmac;
use mac::{Algorithm, Run};
use mdxmac::{MdxMac, ShortMac};
use refusals::Refusal;
use ripemd160::Ripemd160;
use sha_1::Sha1;
use sha256::Sha256;
use tags::{AlgorithmKind, HashKind};

// The lengths of the pieces, over and over: none, within a block, a whole one, over one and over three.
const LENGTHS: [usize; 8] = [1, 7, 64, 100, 3, 63, 0, 200];
// Their sum.
const STRETCH: usize = 438;

// Joins a message to a run, piece by piece.
fn add_pieces<H: Hash, A: Algorithm<H>>(
    hash: &mut H,
    run: &mut Run,
    message: &[u8],
) -> Result<(), Refusal> {
    for stretch in message.chunks(STRETCH) {
        let mut rest = stretch;
        for length in LENGTHS {
            let (piece, tail) = rest.split_at(length.min(rest.len()));
            A::add(hash, run, piece)?;
            rest = tail;
        }
    }
    Ok(())
}

fn tag_by<H: Hash, A: Algorithm<H>>(
    hash: &mut H,
    request: &Request,
    out: &mut [u8],
) -> Result<(), Refusal> {
    let mut work = [0; 64];
    let record = A::expand(hash, &request.key, &mut work)?;
    let mut run = A::begin(&record);
    add_pieces::<H, A>(hash, &mut run, &request.message)?;
    A::end(hash, &mut run, request.t, out, &mut work)
}

fn tag_over<H: Hash>(
    hash: &mut H,
    algorithm: AlgorithmKind,
    request: &Request,
    out: &mut [u8],
) -> Result<(), Refusal> {
    match algorithm {
        AlgorithmKind::OfMdxMac => tag_by::<H, MdxMac>(hash, request, out),
        AlgorithmKind::OfHmac => tag_by::<H, Hmac>(hash, request, out),
        AlgorithmKind::OfShortMac => tag_by::<H, ShortMac>(hash, request, out),
    }
}

// Writes the tag of a request, made in pieces.
pub(crate) fn tag_in_pieces(request: &Request, out: &mut [u8]) -> Result<(), Refusal> {
    let algorithm = AlgorithmKind::try_from(request.algorithm)?;
    match HashKind::try_from(request.hash)? {
        HashKind::OfRipemd160 => tag_over(&mut Ripemd160::new(), algorithm, request, out),
        HashKind::OfSha1 => tag_over(&mut Sha1::new(), algorithm, request, out),
        HashKind::OfSha256 => tag_over(&mut Sha256::new(), algorithm, request, out),
    }
}
