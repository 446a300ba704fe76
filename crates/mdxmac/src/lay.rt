// Bytes laid into the work block: at a place, over what stood there, or mixed with it.
ghost use Rattle.std.specs.Prelude.{◌≡◌, ℕ, ◌+◌, ◌-◌, ◌*◌, ◌<◌, ◌≤◌, length, take, drop};
ghost use Rattle.mdxmac.specs.Bytes.{put, both};
ghost use Rattle.mdxmac.specs.Mdx.{K', three, last};
ghost use Rattle.mdxmac.specs.Short.{L, filled32, short_block};

use hash::Hash;

// Sixteen bytes at a place of the block.
fn put_bytes(block: &mut [u8; 64], at: usize, bytes: &[u8; 16])
    requires { at ≤ 48 }
    ensures { block.new ≡ put at bytes.now block.old }
{
    block[at..at + 16].copy_from_slice(bytes);
}

// The first 16 bytes of the key repeated, at a place of the block. An empty key has none.
pub(crate) fn put_key(block: &mut [u8; 64], at: usize, key: &[u8])
    requires { at ≤ 48 }
    ensures { block.new ≡ put at (K' key.now) block.old }
{
    if key.is_empty() {
        return;
    }
    // by index: of a chain with `cycle` too little is known to prove it
    for i in 0..16 {
        block[at + i] = key[i % key.len()];
    }
}

// Sixteen bytes of the block under other bytes.
fn mix_bytes(block: &mut [u8; 64], at: usize, with: &[u8; 16])
    requires { at ≤ 48 }
    ensures { block.new ≡ put at (both (take 16 (drop at block.old)) with.now) block.old }
{
    // by its place, since a zip with `iter_mut` does not tell what was written
    for (i, x) in with.iter().enumerate() {
        block[at + i] ^= x;
    }
}

// The three strings from number i on, at a place of the block.
pub(crate) fn put_strings<H: Hash>(block: &mut [u8; 64], at: usize, i: usize)
    requires place { at ≤ 16 }
    requires few { i < 3 }
    ensures { block.new ≡ put at (three H.meaning i) block.old }
{
    put_bytes(block, at, &H::string(i));
    put_bytes(block, at + 16, &H::string(i + 1));
    put_bytes(block, at + 32, &H::string(i + 2));
}

// The last block of a long message: 16 bytes, and each string under them.
pub(crate) fn lay_last<H: Hash>(block: &mut [u8; 64], bytes: &[u8; 16])
    ensures { block.new ≡ last H.meaning bytes.now }
{
    put_bytes(block, 0, bytes);
    put_strings::<H>(block, 16, 0);
    mix_bytes(block, 16, bytes);
    mix_bytes(block, 32, bytes);
    mix_bytes(block, 48, bytes);
}

// The length in bits, in 16 bytes, high byte first.
fn length_bytes(n: u32) -> [u8; 16]
    ensures { result ≡ L n }
{
    (8 * n as u128).to_be_bytes()
}

// The first n bytes of those held, filled with zeros to 32, in the middle of the block.
fn put_message(block: &mut [u8; 64], held: &[u8; 64], n: usize)
    requires { n ≤ 32 }
    ensures { block.new ≡ put 16 (filled32 (take n held.now)) block.old }
{
    block[16..16 + n].copy_from_slice(&held[0..n]);
    block[16 + n..48].fill(0);
}

// The one block of a short message.
pub(crate) fn lay_short(block: &mut [u8; 64], bytes: &[u8; 16], held: &[u8; 64], n: u32)
    requires { n ≤ 32 }
    ensures { block.new ≡ short_block bytes.now (take n held.now) }
{
    put_bytes(block, 0, bytes);
    put_message(block, held, n as usize);
    put_bytes(block, 48, &length_bytes(n));
    mix_bytes(block, 48, bytes);
}
