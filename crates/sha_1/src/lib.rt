// SHA-1 of FIPS 180-4 as a hash: five chain words, four added, high byte first.
#![tactic(auto)]

ghost use Rattle.std.specs.Prelude.{◌≡◌, ℕ, ◌%◌, [], ◌∷◌, codes};
ghost use Rattle.hash.specs.Meaning.{hashed};
ghost use Rattle.hash.specs.Meter.{shown, moved, shown_capped, shown_counts};
ghost use Rattle.sha_1.specs.Means.{meaning1, strings1, block_of_string, string_of};
ghost use Rattle.sha_1.specs.Groups.{round_length};
ghost use Rattle.std.proofs.Common.{rules};

use hash::{ByteOrder, Hash, Meter, Shape};
use steps::compress;

mod steps;
mod vectors;
mod words;

// A hash has no state but its meter, which counts rounds.
#[derive(Drop)]
pub struct Sha1 {
    meter: Meter,
}

impl Sha1 {
    pub fn new() -> Self
        ensures { result.meter ≡ 0 }
    {
        Sha1 {
            meter: Meter::new(),
        }
    }
}

// The block that T_i comes from: T_i is the first 16 bytes of its hash, unpadded.
pub fn string_block(i: usize) -> [u8; 64]
    ensures value { result ≡ block_of_string (i % 3) }
    ensures rule { strings1 (i % 3) ≡ string_of result }
{
    vectors::block_of(i % 3)
}

// The hashes of FIPS 180-4's two examples, by the definition that the code is proved against.
pub fn known_hashes() -> [[u8; 20]; 2]
    ensures { result ≡ hashed meaning1 (codes "abc") ∷ hashed meaning1 (codes "abcdbcdecdefdefgefghfghighijhijkijkljklmklmnlmnomnopnopq") ∷ [] }
{
    vectors::known()
}

impl Hash for Sha1 {
    const SHAPE: Shape = Shape {
        words: 5,
        added: 4,
        order: ByteOrder::HighFirst,
    };

    const FIRST: [u32; 8] = [
        0x67452301, 0xefcdab89, 0x98badcfe, 0x10325476, 0xc3d2e1f0, 0, 0, 0,
    ];

    // The first 16 bytes of the unpadded hash of one block: the digit of i twice, then a-z, A-Z, 0-9.
    const STRINGS: [[u8; 16]; 3] = [
        [
            0x1d, 0x4c, 0xa3, 0x9f, 0xa4, 0x04, 0x17, 0xe2, 0xae, 0x5a, 0x77, 0xb4, 0x90, 0x67,
            0xbb, 0xcc,
        ],
        [
            0x93, 0x18, 0xaf, 0xef, 0x5d, 0x5a, 0x5b, 0x46, 0xef, 0xca, 0x6b, 0xec, 0x0e, 0x13,
            0x89, 0x40,
        ],
        [
            0x45, 0x44, 0x20, 0x96, 0x56, 0xe1, 0x4f, 0x97, 0x00, 0x5d, 0xac, 0x76, 0x86, 0x8e,
            0x97, 0xa3,
        ],
    ];

    ghost meaning = { meaning1 };

    ghost reading = { λ h. shown h.meter };

    ghost next = { λ h. record { meter = moved h.meter 1 } };

    ghost fits = { Prim.search rules };

    ghost chain_long = { λ c k b e. round_length c k b e };

    ghost first_long = { Prim.search rules };

    ghost first_blank = { Prim.search rules };

    ghost strings_long = { Prim.search rules };

    ghost strings_blank = { Prim.search rules };

    ghost capped = { λ h. shown_capped h.meter };

    ghost counts = { λ h. shown_counts h.meter };

    fn shape_of() -> Shape {
        Self::SHAPE
    }

    fn first_chain() -> [u32; 8] {
        Self::FIRST
    }

    fn string(i: usize) -> [u8; 16] {
        Self::STRINGS[i % 3]
    }

    fn meter(&self) -> u64 {
        self.meter.reading()
    }

    fn round(&mut self, chain: &mut [u32; 8], added: &[u32; 8], block: &[u8; 64]) {
        compress(chain, added, block);
        self.meter.tick();
    }
}
