// SHA-256 of FIPS 180-4 as a hash: eight chain words, none added, high byte first.
#![tactic(auto)]

ghost use Rattle.std.specs.Prelude.{◌≡◌, ℕ, ◌%◌, [], ◌∷◌, codes};
ghost use Rattle.hash.specs.Meaning.{hashed};
ghost use Rattle.hash.specs.Meter.{shown, moved, shown_capped, shown_counts};
ghost use Rattle.sha256.specs.Primes.{prime, CubeRoot};
ghost use Rattle.sha256.specs.Round.{constant};
ghost use Rattle.sha256.specs.Means.{meaning256};
ghost use Rattle.sha256.specs.Groups.{round_length};
ghost use Rattle.std.proofs.Common.{rules};

use hash::{ByteOrder, Hash, Meter, Shape};
use steps::compress;
use table::constant_at;

mod steps;
mod table;
mod vectors;
mod words;

// A hash has no state but its meter, which counts rounds.
#[derive(Drop)]
pub struct Sha256 {
    meter: Meter,
}

impl Sha256 {
    pub fn new() -> Self
        ensures { result.meter ≡ 0 }
    {
        Sha256 {
            meter: Meter::new(),
        }
    }
}

// The constant of step t: the first 32 bits of the fractional part of the cube root of prime t.
pub fn step_constant(t: usize) -> u32
    ensures value { result ≡ constant (t % 64) }
    ensures root { CubeRoot (prime (t % 64)) result }
{
    constant_at(t % 64)
}

// The hashes of FIPS 180-4's two examples, by the definition that the code is proved against.
pub fn known_hashes() -> [[u8; 32]; 2]
    ensures { result ≡ hashed meaning256 (codes "abc") ∷ hashed meaning256 (codes "abcdbcdecdefdefgefghfghighijhijkijkljklmklmnlmnomnopnopq") ∷ [] }
{
    vectors::known()
}

impl Hash for Sha256 {
    const SHAPE: Shape = Shape {
        words: 8,
        added: 0,
        order: ByteOrder::HighFirst,
    };

    // The first 32 bits of the fractional parts of the square roots of the first eight primes.
    const FIRST: [u32; 8] = [
        0x6a09e667, 0xbb67ae85, 0x3c6ef372, 0xa54ff53a, 0x510e527f, 0x9b05688c, 0x1f83d9ab,
        0x5be0cd19,
    ];

    // None: only a hash with added words has such strings.
    const STRINGS: [[u8; 16]; 3] = [[0; 16]; 3];

    ghost meaning = { meaning256 };

    ghost reading = { λ h. shown h.meter };

    ghost next = { λ h. record { meter = moved h.meter 1 } };

    ghost fits = { Prim.search rules };

    ghost chain_long = { λ c k b e. round_length c k b e };

    ghost first_long = { Prim.search rules };

    ghost first_blank = { Prim.search rules };

    ghost strings_long = { Prim.search rules };

    ghost strings_blank = { Prim.search rules };

    ghost capped = { λ h. shown_capped h.meter };

    ghost counts = { λ h. shown_counts h.meter };

    fn shape_of() -> Shape {
        Self::SHAPE
    }

    fn first_chain() -> [u32; 8] {
        Self::FIRST
    }

    fn string(i: usize) -> [u8; 16] {
        Self::STRINGS[i % 3]
    }

    fn meter(&self) -> u64 {
        self.meter.reading()
    }

    fn round(&mut self, chain: &mut [u32; 8], added: &[u32; 8], block: &[u8; 64]) {
        compress(chain, added, block);
        self.meter.tick();
    }
}
