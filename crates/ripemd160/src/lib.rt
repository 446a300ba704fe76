// RIPEMD-160: its round and its meter, as one of the hashes of crate `hash`.
// A round runs two lines of eighty steps over the same block, and joins their ends with the old chain.
#![tactic(auto)]

ghost use Rattle.std.specs.Prelude.{◌≡◌, true, false, [], ◌∷◌};
ghost use Rattle.hash.specs.Meaning.{step};
ghost use Rattle.hash.specs.Meter.{shown, moved, shown_capped, shown_counts};
ghost use Rattle.hash.specs.Words.{blank};
ghost use Rattle.ripemd160.specs.Round.{joined};
ghost use Rattle.ripemd160.specs.Means.{meaning160};
ghost use Rattle.std.proofs.Common.{rules};

use hash::{ByteOrder, Hash, Meter, Shape, block_words, none_added, sum};
pub use known::{known_codes, known_strings};
pub use mixer::Mixer;
use steps::row;
pub use tables::{Left, Line, Right, order};

mod known;
mod mixer;
mod steps;
mod tables;

// The chain with the ends of the two lines.
fn join(h: [u32; 5], l: [u32; 5], r: [u32; 5]) -> [u32; 5]
    ensures { result ≡ joined h l r }
{
    [
        sum(sum(h[1], l[2]), r[3]),
        sum(sum(h[2], l[3]), r[4]),
        sum(sum(h[3], l[4]), r[0]),
        sum(sum(h[4], l[0]), r[1]),
        sum(sum(h[0], l[1]), r[2]),
    ]
}

// The round: both lines from the old chain, row by row, and then joined with it. The rows stand one by one, since a const
// parameter is no loop variable. Where no words are added, as in the plain hash, each step has a constant that is known when it is
// compiled. Each form is a function of its own in the compiled code too: its words then stay in registers.
#[inline(never)]
fn round_of<const KEYED: bool>(chain: &mut [u32; 8], added: &[u32; 8], block: &[u8; 64])
    requires plain { KEYED ≡ false → blank added.now ≡ true }
    ensures { chain.new ≡ step meaning160 chain.old added.now block.now }
{
    let h: [u32; 5] = *chain.first_chunk().unwrap();
    let xs = block_words(ByteOrder::LowFirst, block);
    let mut l = h;
    let mut r = h;
    row::<0, KEYED>(&mut l, &mut r, added, &xs);
    row::<1, KEYED>(&mut l, &mut r, added, &xs);
    row::<2, KEYED>(&mut l, &mut r, added, &xs);
    row::<3, KEYED>(&mut l, &mut r, added, &xs);
    row::<4, KEYED>(&mut l, &mut r, added, &xs);
    [chain[0], chain[1], chain[2], chain[3], chain[4]] = join(h, l, r);
}

// The round. A step with an added word takes one instruction more, so rounds with and without such words are compiled apart.
fn compress(chain: &mut [u32; 8], added: &[u32; 8], block: &[u8; 64])
    ensures { chain.new ≡ step meaning160 chain.old added.now block.now }
{
    if none_added(added) {
        round_of::<false>(chain, added, block);
    } else {
        round_of::<true>(chain, added, block);
    }
}

#[derive(Drop)]
pub struct Ripemd160 {
    meter: Meter,
}

impl Ripemd160 {
    // A hash whose meter is at 0.
    pub fn new() -> Self
        ensures { result.meter ≡ 0 }
    {
        Ripemd160 {
            meter: Meter::new(),
        }
    }
}

impl Hash for Ripemd160 {
    const SHAPE: Shape = Shape {
        words: 5,
        added: 4,
        order: ByteOrder::LowFirst,
    };

    const FIRST: [u32; 8] = [
        0x67452301, 0xefcdab89, 0x98badcfe, 0x10325476, 0xc3d2e1f0, 0, 0, 0,
    ];

    const STRINGS: [[u8; 16]; 3] = [
        [
            0x1c, 0xc7, 0x08, 0x6a, 0x04, 0x6a, 0xfa, 0x22, 0x35, 0x3a, 0xe8, 0x8f, 0x3d, 0x3d,
            0xac, 0xeb,
        ],
        [
            0xe3, 0xfa, 0x02, 0x71, 0x0e, 0x49, 0x1d, 0x85, 0x11, 0x51, 0xcc, 0x34, 0xe4, 0x71,
            0x8d, 0x41,
        ],
        [
            0x93, 0x98, 0x75, 0x57, 0xc0, 0x7b, 0x81, 0x02, 0xba, 0x59, 0x29, 0x49, 0xeb, 0x63,
            0x8f, 0x37,
        ],
    ];

    ghost meaning = { meaning160 };

    ghost reading = { λ h. shown h.meter };

    ghost next = { λ h. record { meter = moved h.meter 1 } };

    ghost fits = { Prim.search rules };

    ghost chain_long = { Prim.search rules };

    ghost first_long = { Prim.search rules };

    ghost first_blank = { Prim.search rules };

    ghost strings_long = { Prim.search rules };

    ghost strings_blank = { Prim.search rules };

    ghost capped = { λ h. shown_capped h.meter };

    ghost counts = { λ h. shown_counts h.meter };

    fn shape_of() -> Shape {
        Self::SHAPE
    }

    fn first_chain() -> [u32; 8] {
        Self::FIRST
    }

    fn string(i: usize) -> [u8; 16] {
        Self::STRINGS[i % 3]
    }

    fn meter(&self) -> u64 {
        self.meter.reading()
    }

    fn round(&mut self, chain: &mut [u32; 8], added: &[u32; 8], block: &[u8; 64]) {
        compress(chain, added, block);
        self.meter.tick();
    }
}
