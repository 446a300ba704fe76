// One interface for every hash: the round, the meter, and what the code above needs to know.
// Padding and block chaining stand here once, for all of them.
#![tactic(auto)]

ghost use Rattle.std.specs.Prelude.{◌≡◌, ℕ, ◌+◌, ◌-◌, ◌*◌, ◌/◌, ◌%◌, ◌^◌, ◌<◌, ◌≤◌, List, ◌∷◌, ◌++◌, length, map, take, drop, replicate, [], slice_index};
ghost use Rattle.hash.specs.Meaning.{Meaning, step, chained, blocks, eight, four, code, padding, padded, hashed, none, closing};
ghost use Rattle.hash.specs.Held.{filled, tail_after, joined, whole_blocks, rest_of, laid_over, kept_of};
ghost use Rattle.hash.specs.Meter.{after, moved};
ghost use Rattle.hash.specs.Words.{word_of, words, blank};

pub use meter::Meter;
use std::array;
pub use words::{choose, majority, sum};

mod meter;
mod words;

#[derive(Clone, Copy)]
pub enum ByteOrder {
    LowFirst,
    HighFirst,
}

impl ByteOrder {
    fn u64_to_bytes(self, n: u64) -> [u8; 8]
        ensures { result ≡ eight self n }
    {
        match self {
            ByteOrder::LowFirst => n.to_le_bytes(),
            ByteOrder::HighFirst => n.to_be_bytes(),
        }
    }

    // The bytes of each word of a chain.
    fn chain_to_bytes(self, chain: &[u32; 8]) -> [[u8; 4]; 8]
        ensures { result ≡ map (four self) chain.now }
    {
        match self {
            ByteOrder::LowFirst => chain.map(u32::to_le_bytes),
            ByteOrder::HighFirst => chain.map(u32::to_be_bytes),
        }
    }

    fn u32_from_bytes(self, bytes: [u8; 4]) -> u32
        ensures { result ≡ word_of self (slice_index bytes 0) (slice_index bytes 1) (slice_index bytes 2) (slice_index bytes 3) }
    {
        match self {
            ByteOrder::LowFirst => u32::from_le_bytes(bytes),
            ByteOrder::HighFirst => u32::from_be_bytes(bytes),
        }
    }
}

// The numbers of a hash: w chain words, a added words, and the order of bytes in a word.
#[derive(Clone, Copy)]
pub struct Shape {
    pub words: usize,
    pub added: usize,
    pub order: ByteOrder,
    ghost fits: { (4 ≤ words) × (words ≤ 8) × (added % 4 ≡ 0) × (added ≤ words) },
}

pub trait Hash {
    ghost meaning: { Meaning };

    // what the meter reads
    ghost reading: { Self → ℕ };

    // the hash after one round more: only its meter has moved
    ghost next: { Self → Self };

    const SHAPE: Shape;

    const FIRST: [u32; 8];

    const STRINGS: [[u8; 16]; 3];

    // The constants, tied to the meaning. Each hash gives these three itself: a body that stood here would owe a law on the constants, and
    // with it every type that implements `Hash`.
    fn shape_of() -> Shape
        ensures { (result.words ≡ meaning.words) × (result.added ≡ meaning.added) × (result.order ≡ meaning.order) };

    fn first_chain() -> [u32; 8]
        ensures { result ≡ meaning.first };

    // T0, T1 or T2.
    fn string(i: usize) -> [u8; 16]
        ensures { result ≡ meaning.strings (i % 3) };

    fn meter(&self) -> u64
        ensures { result ≡ reading self.now };

    // Replaces the chain by φ of chain, added words and block, and moves the meter by one.
    fn round(&mut self, chain: &mut [u32; 8], added: &[u32; 8], block: &[u8; 64])
        ensures chain { chain.new ≡ step meaning chain.old added.now block.now }
        ensures meter { self.new ≡ next self.old };

    ghost fits: { (4 ≤ meaning.words) × (meaning.words ≤ 8) × (meaning.added % 4 ≡ 0) × (meaning.added ≤ meaning.words) };

    ghost chain_long: { (c k b : List ℕ) → length c ≡ meaning.words → length (meaning.phi c k b) ≡ meaning.words };

    ghost first_long: { length meaning.first ≡ 8 };

    ghost first_blank: { drop meaning.words meaning.first ≡ replicate (8 - meaning.words) 0 };

    ghost strings_long: { (i : ℕ) → i < 3 → length (meaning.strings i) ≡ 16 };

    ghost strings_blank: { (i : ℕ) → i < 3 → meaning.added ≡ 0 → meaning.strings i ≡ replicate 16 0 };

    ghost capped: { (h : Self) → reading h < 2 ^ 64 };

    ghost counts: { (h : Self) → reading (next h) ≡ moved (reading h) 1 };
}

// One round for each whole block of `bytes`, in their order.
fn fold_blocks<H: Hash>(hash: &mut H, chain: &mut [u32; 8], added: &[u32; 8], bytes: &[u8])
    ensures chain { chain.new ≡ chained H.meaning chain.old added.now bytes.now (length bytes.now / 64) }
    ensures meter { hash.new ≡ after H.next hash.old (length bytes.now / 64) }
{
    for block in bytes.as_chunks().0 {
        hash.round(chain, added, block);
    }
}

// The rounds of the whole blocks of `bytes`.
pub fn chain_blocks<H: Hash>(hash: &mut H, chain: &mut [u32; 8], added: &[u32; 8], bytes: &[u8])
    ensures chain { chain.new ≡ chained H.meaning chain.old added.now bytes.now (length bytes.now / 64) }
    ensures meter { hash.new ≡ after H.next hash.old (length bytes.now / 64) }
{
    fold_blocks(hash, chain, added, bytes);
}

// Copies from the piece into the held block, from the place `at` on, as much as there is room for, and gives
// the piece's tail, as the part of the caller's bytes that it is.
fn fill_at<'h, 'p>(held: &'h mut [u8], at: usize, piece: &'p [u8]) -> &'p [u8]
    requires { at ≤ length held.old }
    ensures held { held.new ≡ filled held.old at piece.now }
    ensures tail { result.now ≡ tail_after held.old at piece.now }
{
    let n = (held.len() - at).min(piece.len());
    let (front, tail) = piece.split_at(n);
    held[at..at + n].copy_from_slice(front);
    tail
}

// The rounds of the piece's whole blocks, where they lie, and the rest of it held.
fn absorb_whole<H: Hash>(
    hash: &mut H,
    chain: &mut [u32; 8],
    added: &[u32; 8],
    held: &mut [u8; 64],
    piece: &[u8],
)
    ensures chain { chain.new ≡ chained H.meaning chain.old added.now piece.now (length piece.now / 64) }
    ensures held { held.new ≡ laid_over (rest_of piece.now) held.old }
    ensures meter { hash.new ≡ after H.next hash.old (length piece.now / 64) }
{
    chain_blocks(hash, chain, added, piece);
    fill_at(held, 0, piece.as_chunks::<64>().1);
}

// Joins a piece to the first `at` bytes of the held block.
fn absorb_at<H: Hash>(
    hash: &mut H,
    chain: &mut [u32; 8],
    added: &[u32; 8],
    held: &mut [u8; 64],
    at: usize,
    piece: &[u8],
)
    requires { at < 64 }
    ensures chain { chain.new ≡ chained H.meaning chain.old added.now (joined held.old at piece.now) (whole_blocks at piece.now) }
    ensures held { held.new ≡ kept_of held.old at piece.now }
    ensures meter { hash.new ≡ after H.next hash.old (whole_blocks at piece.now) }
{
    if at == 0 {
        absorb_whole(hash, chain, added, held, piece);
        return;
    }
    let tail = fill_at(held, at, piece);
    if piece.len() < 64 - at {
        return;
    }
    hash.round(chain, added, held);
    absorb_whole(hash, chain, added, held, tail);
}

// Joins a piece to a message of `fed` bytes, whose last `fed % 64` the block holds: the rounds of the blocks
// that are now full, and the rest held. Full blocks of the piece are worked on in place.
pub fn absorb<H: Hash>(
    hash: &mut H,
    chain: &mut [u32; 8],
    added: &[u32; 8],
    held: &mut [u8; 64],
    fed: usize,
    piece: &[u8],
)
    ensures chain { chain.new ≡ chained H.meaning chain.old added.now (joined held.old (fed % 64) piece.now) (whole_blocks (fed % 64) piece.now) }
    ensures held { held.new ≡ kept_of held.old (fed % 64) piece.now }
    ensures meter { hash.new ≡ after H.next hash.old (whole_blocks (fed % 64) piece.now) }
{
    absorb_at(hash, chain, added, held, fed % 64, piece);
}

// The byte 80 at the place `at`, and zero bytes after it.
#[tactic(auto, using(crate::proofs::Close::marked))]
fn mark(block: &mut [u8; 64], at: usize)
    requires { at < 64 }
    ensures { block.new ≡ take at block.old ++ 128 ∷ replicate (63 - at) 0 }
{
    block[at] = 0x80;
    block[at + 1..].fill(0);
}

// Eight bytes at the end of the block.
#[tactic(auto, using(crate::proofs::Close::ended))]
fn write_bits(block: &mut [u8; 64], bits: &[u8; 8])
    ensures { block.new ≡ take 56 block.old ++ bits.now }
{
    block[56..].copy_from_slice(bits);
}

// Closes a message of `total` bytes, the first `at` bytes of the block being its last.
fn close_at<H: Hash>(
    hash: &mut H,
    chain: &mut [u32; 8],
    added: &[u32; 8],
    block: &mut [u8; 64],
    at: usize,
    total: u64,
)
    requires within { at < 64 }
    requires place { total % 64 ≡ at }
    ensures chain { chain.new ≡ chained H.meaning chain.old added.now (closing H.meaning.order block.old at total) (blocks at) }
    ensures block { block.new ≡ drop (64 * (blocks at - 1)) (closing H.meaning.order block.old at total) }
    ensures meter { hash.new ≡ after H.next hash.old (blocks at) }
{
    let bits = H::shape_of().order.u64_to_bytes(total.wrapping_mul(8));
    mark(block, at);
    if at >= 56 {
        hash.round(chain, added, block);
        block.fill(0);
    }
    write_bits(block, &bits);
    hash.round(chain, added, block);
}

// Closes a message of `total` bytes, whose last `total % 64` stand first in the block: the rounds of these with
// the padding. The block ends as the last one that was worked on.
pub fn chain_end<H: Hash>(
    hash: &mut H,
    chain: &mut [u32; 8],
    added: &[u32; 8],
    block: &mut [u8; 64],
    total: u64,
)
    ensures chain { chain.new ≡ chained H.meaning chain.old added.now (closing H.meaning.order block.old (total % 64) total) (blocks (total % 64)) }
    ensures block { block.new ≡ drop (64 * (blocks (total % 64) - 1)) (closing H.meaning.order block.old (total % 64) total) }
    ensures meter { hash.new ≡ after H.next hash.old (blocks (total % 64)) }
{
    close_at(hash, chain, added, block, (total % 64) as usize, total);
}

// The code of a chain, in the first bytes of a place that has room.
fn put_code<H: Hash>(chain: &[u32; 8], out: &mut [u8])
    requires { 32 ≤ length out.old }
    ensures bytes { out.new ≡ code H.meaning chain.now ++ drop (4 * H.meaning.words) out.old }
    ensures size { length (code H.meaning chain.now) ≡ 4 * H.meaning.words }
{
    let Shape { words, order, .. } = H::shape_of();
    let code = order.chain_to_bytes(chain);
    let size = 4 * words;
    out[..size].copy_from_slice(&code.as_flattened()[..size]);
}

// Writes the code of a chain first into the block, and leaves the bytes past it.
pub fn write_code<H: Hash>(chain: &[u32; 8], block: &mut [u8; 64])
    ensures bytes { block.new ≡ code H.meaning chain.now ++ drop (4 * H.meaning.words) block.old }
    ensures size { length (code H.meaning chain.now) ≡ 4 * H.meaning.words }
{
    put_code::<H>(chain, block);
}

// The chain of the plain hash of a message.
fn hash_chain<H: Hash>(hash: &mut H, message: &[u8]) -> [u32; 8]
    ensures chain { result ≡ chained H.meaning H.meaning.first none (padded H.meaning.order message.now) (blocks (length message.now)) }
    ensures meter { hash.new ≡ after H.next hash.old (blocks (length message.now)) }
{
    let mut chain = H::first_chain();
    let mut block = [0; 64];
    absorb(hash, &mut chain, &[0; 8], &mut block, 0, message);
    chain_end(hash, &mut chain, &[0; 8], &mut block, message.len() as u64);
    chain
}

// Writes the plain hash of a message, 4w bytes, and leaves the bytes past it.
pub fn hash_message<H: Hash>(hash: &mut H, message: &[u8], out: &mut [u8; 32])
    ensures code { out.new ≡ hashed H.meaning message.now ++ drop (4 * H.meaning.words) out.old }
    ensures meter { hash.new ≡ after H.next hash.old (blocks (length message.now)) }
{
    let chain = hash_chain(hash, message);
    put_code::<H>(&chain, out);
}

fn load_words(order: ByteOrder, block: &[u8; 64]) -> [u32; 16]
    ensures { result ≡ words order block.now 16 }
{
    let (words, _) = block.as_chunks();
    array::from_fn(|t| order.u32_from_bytes(words[t]))
}

// The sixteen words of a block.
pub fn block_words(order: ByteOrder, block: &[u8; 64]) -> [u32; 16]
    ensures { result ≡ words order block.now 16 }
{
    load_words(order, block)
}

// Are the four added words zeros, as in the plain hash? By one or of all: a pattern takes six instructions more in each round of RIPEMD-160.
#[tactic(auto, using(crate::proofs::Sums::or_blank))]
pub fn none_added(added: &[u32; 8]) -> bool
    ensures { result ≡ blank added.now }
{
    added[0] | added[1] | added[2] | added[3] == 0
}
