// K0, K1 and K2 of a key, which algorithms 1 and 3 share. No added words are in force while they are made.
ghost use Rattle.std.specs.Prelude.{◌≡◌, ℕ, ◌+◌, ◌-◌, ◌*◌, ◌<◌, ◌≤◌, true, List, ◌++◌, length, take, replicate};
ghost use Rattle.hash.specs.Meaning.{step, code, none};
ghost use Rattle.hash.specs.Meter.{after};
ghost use Rattle.mac.specs.Face.{within};
ghost use Rattle.mac.specs.Plan.{Recorded};
ghost use Rattle.mdxmac.specs.Mdx.{keys, mixed, three_parts};

use crate::lay::{put_key, put_strings};
use hash::{Hash, write_code};
use mac::{KeyRecord, blank_record};

// A round with no added words in force.
fn plain_round<H: Hash>(hash: &mut H, chain: &mut [u32; 8], block: &[u8; 64])
    ensures chain { chain.new ≡ step H.meaning chain.old none block.now }
    ensures meter { hash.new ≡ H.next hash.old }
{
    hash.round(chain, &[0; 8], block);
}

// The chain of K', U i and K'.
fn mixed_chain<H: Hash>(
    hash: &mut H,
    block: &mut [u8; 64],
    key: &[u8],
    i: usize,
    chain: &mut [u32; 8],
)
    requires { i < 3 }
    ensures chain { 1 ≤ length key.now → chain.new ≡ mixed H.meaning i key.now }
    ensures meter { hash.new ≡ after H.next hash.old 2 }
{
    *chain = H::first_chain();
    put_key(block, 0, key);
    put_strings::<H>(block, 16, i);
    plain_round(hash, chain, block);
    put_strings::<H>(block, 0, i);
    put_key(block, 48, key);
    plain_round(hash, chain, block);
}

// Keeps the added words of a chain, and zeros to eight words.
fn keep_added<H: Hash>(words: &mut [u32; 8])
    ensures { words.new ≡ take H.meaning.added words.old ++ replicate (8 - H.meaning.added) 0 }
{
    let n = H::shape_of().added;
    words[n..8].fill(0);
}

// The first 16 bytes of the block.
fn front_bytes(block: &[u8; 64], bytes: &mut [u8; 16])
    ensures { bytes.new ≡ take 16 block.now }
{
    bytes.copy_from_slice(&block[0..16]);
}

// The first 16 bytes of a chain's code, worked out in the block.
fn code_bytes<H: Hash>(chain: &[u32; 8], block: &mut [u8; 64], bytes: &mut [u8; 16])
    ensures { bytes.new ≡ take 16 (code H.meaning chain.now) }
{
    write_code::<H>(chain, block);
    front_bytes(block, bytes);
}

// K0, K1 and K2 of a key. The place of K1 serves for the chain that K2 is taken from.
pub(crate) fn key_record<H: Hash>(hash: &mut H, block: &mut [u8; 64], key: &[u8]) -> KeyRecord
    ensures stands { within keys (length key.now) ≡ true → Recorded (three_parts H.meaning) result key.now }
    ensures meter { hash.new ≡ after H.next hash.old 6 }
{
    let mut record = blank_record();
    mixed_chain(hash, block, key, 2, &mut record.second);
    code_bytes::<H>(&record.second, block, &mut record.bytes);
    mixed_chain(hash, block, key, 0, &mut record.first);
    mixed_chain(hash, block, key, 1, &mut record.second);
    keep_added::<H>(&mut record.second);
    record
}
