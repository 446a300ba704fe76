// HMAC over any hash: the hash of the key under one pad and the hash of the key under another and the message.
// A key's record keeps the chains after the two padded keys, so that a message costs only its own blocks.
#![tactic(auto)]

ghost use Rattle.std.specs.Prelude.{◌≡◌, ℕ, ◌+◌, ◌-◌, ◌*◌, ◌/◌, ◌%◌, ◌^◌, ◌<◌, ◌≤◌, true, List, [], ◌++◌, length, take, replicate};
ghost use Rattle.hash.specs.Meter.{after};
ghost use Rattle.mac.specs.Face.{within};
ghost use Rattle.mac.specs.Plan.{Recorded, laws_of, streams_of};
ghost use Rattle.mac.specs.Promises.{Closed};
ghost use Rattle.hmac.specs.Hmac.{keys, xored, filled_key, after_block, two_chains, hmac_plan, hmac_face};
ghost use Rattle.std.proofs.Common.{arith, rules};
ghost use Rattle.hash.proofs.Close.{chained_sized};
ghost use Rattle.mac.proofs.Codes.{tag_sized};

use hash::{Hash, chain_end, write_code};
use mac::{KeyRecord, Row, Run, Span, Streamed, Streaming, blank_record};

// The lengths of keys, in bytes.
const KEYS: Span = Span {
    least: 16,
    most: 64,
};

// The longest message, in bytes.
const MOST: usize = 1_048_576;

// Puts each byte of the block under a pad.
fn xor_all(block: &mut [u8; 64], pad: u8)
    ensures { block.new ≡ xored pad block.old }
{
    for x in block.iter_mut() {
        *x ^= pad;
    }
}

// The first 64 bytes of the key, filled with zeros to the block.
fn lay_key(block: &mut [u8; 64], key: &[u8])
    ensures { block.new ≡ filled_key (take 64 key.now) }
{
    let n = key.len().min(64);
    block.fill(0);
    block[0..n].copy_from_slice(&key[0..n]);
}

// The chain after the one block that is the filled key under a pad.
fn keyed_chain<H: Hash>(
    hash: &mut H,
    block: &mut [u8; 64],
    key: &[u8],
    pad: u8,
    chain: &mut [u32; 8],
)
    ensures chain { chain.new ≡ after_block H.meaning (xored pad (filled_key (take 64 key.now))) }
    ensures meter { hash.new ≡ H.next hash.old }
{
    lay_key(block, key);
    xor_all(block, pad);
    *chain = H::first_chain();
    hash.round(chain, &[0; 8], block);
}

// The record of a key: the chains after the filled key under each of the two pads.
fn key_record<H: Hash>(hash: &mut H, block: &mut [u8; 64], key: &[u8]) -> KeyRecord
    ensures stands { within keys (length key.now) ≡ true → Recorded (two_chains H.meaning) result key.now }
    ensures meter { hash.new ≡ after H.next hash.old 2 }
{
    let mut record = blank_record();
    keyed_chain(hash, block, key, 0x36, &mut record.first);
    keyed_chain(hash, block, key, 0x5c, &mut record.second);
    record
}

// Ends the inner message and then the outer one, whose code stands first in the block.
fn close_run<H: Hash>(hash: &mut H, run: &mut Run, block: &mut [u8; 64])
    ensures { Closed H.next (hmac_face H.meaning) hash.old hash.new run.old block.new }
{
    let fed = run.fed as u64;
    chain_end(hash, &mut run.chain, &[0; 8], &mut run.held, 64 + fed);
    write_code::<H>(&run.chain, block);
    let n = 4 * H::shape_of().words;
    chain_end(hash, &mut run.second, &[0; 8], block, 64 + n as u64);
    write_code::<H>(&run.second, block);
}

pub type Hmac = Streaming<HmacSteps>;

// The steps in which HMAC differs from other algorithms.
#[derive(Drop)]
pub struct HmacSteps;

impl<H: Hash> Streamed<H> for HmacSteps {
    ghost face = { hmac_face H.Hash.meaning };

    ghost laws = { let m = H.Hash.meaning in laws_of m (hmac_plan m) };

    ghost limits = { Prim.search rules };

    ghost streams = { let m = H.Hash.meaning in streams_of m (hmac_plan m) };

    ghost sized = { λ k b t fits.
        let m = H.Hash.meaning in
        let few = H.Hash.fits.1 in
        tag_sized m (hmac_face m).row.tag _ t (chained_sized m H.Hash.chain_long few m.first _ _ _ H.Hash.first_long) few (omega arith) fits };

    fn lengths() -> Row {
        Row::new(KEYS, 4 * H::shape_of().words, MOST)
    }

    fn adds_words() -> bool {
        false
    }

    fn make_record(hash: &mut H, key: &[u8], work: &mut [u8; 64]) -> KeyRecord {
        key_record(hash, work, key)
    }

    fn close_run(hash: &mut H, run: &mut Run, work: &mut [u8; 64]) {
        close_run(hash, run, work);
    }
}
