// MDx-MAC and the algorithm for short strings, over any hash with added words. Both make three parts of a key, K0, K1
// and K2, and run the hash's round from K0 with the added words K1; they differ in the blocks that they run over.
#![tactic(auto)]

ghost use Rattle.std.specs.Prelude.{◌≡◌, ℕ, ◌+◌, ◌-◌, ◌*◌, ◌/◌, ◌%◌, ◌<◌, ◌≤◌, List, [], ◌++◌, length};
ghost use Rattle.mac.specs.Plan.{laws_of, streams_of};
ghost use Rattle.mac.specs.Promises.{Closed};
ghost use Rattle.mdxmac.specs.Mdx.{mdx_plan, mdx_face};
ghost use Rattle.mdxmac.specs.Short.{short_plan, short_face};
ghost use Rattle.std.proofs.Common.{arith, rules};
ghost use Rattle.hash.proofs.Close.{chained_sized};
ghost use Rattle.mac.proofs.Codes.{tag_sized};
ghost use Rattle.mdxmac.specs.Mixing.{mixed_sized};

use crate::keys::key_record;
use crate::lay::{lay_last, lay_short};
use hash::{Hash, chain_end, write_code};
use mac::{KeyRecord, Row, Run, Span, Streamed, Streaming};

mod keys;
mod lay;

// The lengths of keys, in bytes.
const KEYS: Span = Span { least: 1, most: 16 };

// The longest message of each algorithm, in bytes.
const MOST: usize = 1_048_576;

const MOST_SHORT: usize = 32;

// Ends the message and makes the last round; the chain's code stands first in the block.
fn close_run<H: Hash>(hash: &mut H, run: &mut Run, block: &mut [u8; 64])
    ensures { Closed H.next (mdx_face H.meaning) hash.old hash.new run.old block.new }
{
    let fed = run.fed as u64;
    chain_end(hash, &mut run.chain, &run.second, &mut run.held, fed);
    lay_last::<H>(block, &run.bytes);
    hash.round(&mut run.chain, &run.second, block);
    write_code::<H>(&run.chain, block);
}

// Makes the one round of a short message; the chain's code stands first in the block.
fn close_short<H: Hash>(hash: &mut H, run: &mut Run, block: &mut [u8; 64])
    ensures { Closed H.next (short_face H.meaning) hash.old hash.new run.old block.new }
{
    let n = run.fed.min(MOST_SHORT as u32);
    lay_short(block, &run.bytes, &run.held, n);
    hash.round(&mut run.chain, &run.second, block);
    write_code::<H>(&run.chain, block);
}

pub type MdxMac = Streaming<MdxMacSteps>;

// The steps in which MDx-MAC differs from other algorithms.
#[derive(Drop)]
pub struct MdxMacSteps;

impl<H: Hash> Streamed<H> for MdxMacSteps {
    ghost face = { mdx_face H.Hash.meaning };

    ghost laws = { let m = H.Hash.meaning in laws_of m (mdx_plan m) };

    ghost limits = { Prim.search rules };

    ghost streams = { let m = H.Hash.meaning in streams_of m (mdx_plan m) };

    ghost sized = { λ k b t fits.
        let m = H.Hash.meaning in
        let few = H.Hash.fits.1 in
        let keeps = H.Hash.chain_long in
        let start = mixed_sized m keeps few H.Hash.first_long 0 k in
        tag_sized m (mdx_face m).row.tag _ t (chained_sized m keeps few _ _ _ 1 (chained_sized m keeps few _ _ _ _ start)) few (omega arith) fits };

    fn lengths() -> Row {
        Row::new(KEYS, 4 * H::shape_of().words, MOST)
    }

    fn adds_words() -> bool {
        true
    }

    fn make_record(hash: &mut H, key: &[u8], work: &mut [u8; 64]) -> KeyRecord {
        key_record(hash, work, key)
    }

    fn close_run(hash: &mut H, run: &mut Run, work: &mut [u8; 64]) {
        close_run(hash, run, work);
    }
}

pub type ShortMac = Streaming<ShortMacSteps>;

// The same for short strings.
#[derive(Drop)]
pub struct ShortMacSteps;

impl<H: Hash> Streamed<H> for ShortMacSteps {
    ghost face = { short_face H.Hash.meaning };

    ghost laws = { let m = H.Hash.meaning in laws_of m (short_plan m) };

    ghost limits = { Prim.search rules };

    ghost streams = { let m = H.Hash.meaning in streams_of m (short_plan m) };

    ghost sized = { λ k b t fits.
        let m = H.Hash.meaning in
        let few = H.Hash.fits.1 in
        let keeps = H.Hash.chain_long in
        let start = mixed_sized m keeps few H.Hash.first_long 0 k in
        tag_sized m (short_face m).row.tag _ t (chained_sized m keeps few _ _ _ 1 start) few (omega arith) fits };

    fn lengths() -> Row {
        Row::new(KEYS, 2 * H::shape_of().words, MOST_SHORT)
    }

    fn adds_words() -> bool {
        true
    }

    fn make_record(hash: &mut H, key: &[u8], work: &mut [u8; 64]) -> KeyRecord {
        key_record(hash, work, key)
    }

    fn close_run(hash: &mut H, run: &mut Run, work: &mut [u8; 64]) {
        close_short(hash, run, work);
    }
}
