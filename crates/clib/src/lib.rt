// What C and Rust call: the plain hash and the one-shot tag, by numbers and byte slices. Every function answers 0, or the number
// of the refusal. `include/kallqono.h` is the manual.
#![tactic(auto)]

ghost use Rattle.std.specs.Prelude.{◌≡◌, length};
ghost use Rattle.mac.specs.Promises.{wiped};
ghost use Rattle.tags.specs.Asked.{written};
ghost use Rattle.tags.specs.Kinds.{hash_by};
ghost use Rattle.tags.specs.Tag.{answered, tag_of};
ghost use Rattle.clib.specs.Answers.{status, counted, hash_status, hash_put, hash_status_by, hash_put_by};

use hash::{Hash, hash_message};
use refusals::Refusal;
use ripemd160::Ripemd160;
use sha_1::Sha1;
use sha256::Sha256;
use tags::{HashKind, make_tag};

// The block in which key material is worked on.
#[repr(C)]
pub struct Work {
    pub bytes: [u8; 64],
}

// 0, or the number of the refusal.
fn status<T: Drop>(answer: Result<T, Refusal>) -> u32
    ensures { result ≡ status answer }
{
    match answer {
        Ok(_) => 0,
        Err(refusal) => u32::from(u8::from(refusal)),
    }
}

// The plain hash of a message, where there is room for it.
fn put_hash<H: Hash>(hash: &mut H, message: &[u8], out: &mut [u8]) -> Result<(), Refusal>
    ensures answer { status result ≡ hash_status H.meaning (length out.old) }
    ensures code { out.new ≡ hash_put H.meaning message.now out.old }
{
    let n = 4 * H::shape_of().words;
    if n > out.len() {
        return Err(Refusal::Room);
    }
    let mut code = [0; 32];
    hash_message(hash, message, &mut code);
    out[0..n].copy_from_slice(&code[0..n]);
    Ok(())
}

fn put_hash_by(hash: u32, message: &[u8], out: &mut [u8]) -> Result<(), Refusal>
    ensures answer { status result ≡ hash_status_by (hash_by hash) (length out.old) }
    ensures code { out.new ≡ hash_put_by (hash_by hash) message.now out.old }
{
    match HashKind::try_from(hash)? {
        HashKind::OfRipemd160 => put_hash(&mut Ripemd160::new(), message, out),
        HashKind::OfSha1 => put_hash(&mut Sha1::new(), message, out),
        HashKind::OfSha256 => put_hash(&mut Sha256::new(), message, out),
    }
}

// Writes the plain hash of a message, by the hash's number, and leaves the bytes past it. A refusal (1, 6) leaves all as found.
#[unsafe(no_mangle)]
pub extern "C" fn kallqono_hash(hash: u32, message: &[u8], out: &mut [u8]) -> u32
    ensures answer { result ≡ hash_status_by (hash_by hash) (length out.old) }
    ensures code { out.new ≡ hash_put_by (hash_by hash) message.now out.old }
{
    status(put_hash_by(hash, message, out))
}

// Writes the tag of t bytes and sets the rounds that it took; a refusal (1 to 6) leaves both as found. The work block is
// wiped either way.
#[unsafe(no_mangle)]
pub extern "C" fn kallqono_tag(
    algorithm: u32,
    hash: u32,
    t: usize,
    key: &[u8],
    message: &[u8],
    out: &mut [u8],
    work: &mut Work,
    rounds: &mut u64,
) -> u32
    ensures answer { result ≡ status (answered algorithm hash t (length key.now) (length message.now) (length out.old)) }
    ensures rounds { rounds.new ≡ counted (answered algorithm hash t (length key.now) (length message.now) (length out.old)) rounds.old }
    ensures tag { out.new ≡ written (answered algorithm hash t (length key.now) (length message.now) (length out.old)) (tag_of algorithm hash t key.now message.now) t out.old }
    ensures wiped { work.new.bytes ≡ wiped }
{
    let made = make_tag(algorithm, hash, t, key, message, out, &mut work.bytes);
    if let Ok(count) = made {
        *rounds = count;
    }
    status(made)
}
