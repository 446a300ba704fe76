// The two lines of RIPEMD-160: what each has for its five rows of sixteen steps.
ghost use Rattle.std.specs.Prelude.{◌≡◌, ℕ, List};
ghost use Rattle.ripemd160.specs.Orders.{EachOnce, InBlock};
ghost use Rattle.ripemd160.specs.Round.{Tables, left, right};
ghost use Rattle.ripemd160.specs.declared.mixer.Mixer.{Mixer};
ghost use Rattle.ripemd160.specs.Once.{once_left, once_right, within_left, within_right};
ghost use Rattle.std.proofs.Common.{refl};

use super::mixer::Mixer;

// What a line has of its own. The two tables are lent: a constant of a trait is made anew wherever it is read.
pub trait Line {
    ghost tables: { Tables };

    // The function of each row.
    const MIXERS: [Mixer; 5];

    ghost MIXERS: { List Mixer };

    // The constant of each row.
    const CONSTANTS: [u32; 5];

    ghost CONSTANTS: { List ℕ };

    // Which added word row 0 adds to its constant: each later row adds the next of four.
    const FIRST_ADDED: u8;

    ghost FIRST_ADDED: { ℕ };

    // The word of the block that each step takes.
    fn order() -> &'static [[usize; 16]; 5]
        ensures { result.now ≡ tables.order };

    // The places by which each step rotates.
    fn shift() -> &'static [[u32; 16]; 5]
        ensures { result.now ≡ tables.shift };

    // the constants are those of the line
    ghost constants: { (MIXERS ≡ tables.mixers) × (CONSTANTS ≡ tables.constants) × (FIRST_ADDED ≡ tables.first_added) };

    ghost once: { EachOnce tables.order };

    ghost in_block: { InBlock tables.order };
}

pub struct Left;

pub struct Right;

impl Line for Left {
    ghost tables = { left };

    const MIXERS: [Mixer; 5] = [
        Mixer::Parity,
        Mixer::Choose,
        Mixer::Either,
        Mixer::Select,
        Mixer::Last,
    ];

    ghost MIXERS = { left.mixers };

    const CONSTANTS: [u32; 5] = [0, 0x5a827999, 0x6ed9eba1, 0x8f1bbcdc, 0xa953fd4e];

    ghost CONSTANTS = { left.constants };

    const FIRST_ADDED: u8 = 0;

    ghost FIRST_ADDED = { left.first_added };

    fn order() -> &'static [[usize; 16]; 5] {
        &[
            [0, 1, 2, 3, 4, 5, 6, 7, 8, 9, 10, 11, 12, 13, 14, 15],
            [7, 4, 13, 1, 10, 6, 15, 3, 12, 0, 9, 5, 2, 14, 11, 8],
            [3, 10, 14, 4, 9, 15, 8, 1, 2, 7, 0, 6, 13, 11, 5, 12],
            [1, 9, 11, 10, 0, 8, 12, 4, 13, 3, 7, 15, 14, 5, 6, 2],
            [4, 0, 5, 9, 7, 12, 2, 10, 14, 1, 3, 8, 11, 6, 15, 13],
        ]
    }

    fn shift() -> &'static [[u32; 16]; 5] {
        &[
            [11, 14, 15, 12, 5, 8, 7, 9, 11, 13, 14, 15, 6, 7, 9, 8],
            [7, 6, 8, 13, 11, 9, 7, 15, 7, 12, 15, 9, 11, 7, 13, 12],
            [11, 13, 6, 7, 14, 9, 13, 15, 14, 8, 13, 6, 5, 12, 7, 5],
            [11, 12, 14, 15, 14, 15, 9, 8, 9, 14, 5, 6, 8, 6, 5, 12],
            [9, 15, 5, 11, 6, 8, 13, 12, 5, 12, 13, 14, 11, 8, 5, 6],
        ]
    }

    ghost constants = { (refl, refl, refl) };

    ghost once = { once_left };

    ghost in_block = { within_left };
}

impl Line for Right {
    ghost tables = { right };

    const MIXERS: [Mixer; 5] = [
        Mixer::Last,
        Mixer::Select,
        Mixer::Either,
        Mixer::Choose,
        Mixer::Parity,
    ];

    ghost MIXERS = { right.mixers };

    const CONSTANTS: [u32; 5] = [0x50a28be6, 0x5c4dd124, 0x6d703ef3, 0x7a6d76e9, 0];

    ghost CONSTANTS = { right.constants };

    const FIRST_ADDED: u8 = 1;

    ghost FIRST_ADDED = { right.first_added };

    fn order() -> &'static [[usize; 16]; 5] {
        &[
            [5, 14, 7, 0, 9, 2, 11, 4, 13, 6, 15, 8, 1, 10, 3, 12],
            [6, 11, 3, 7, 0, 13, 5, 10, 14, 15, 8, 12, 4, 9, 1, 2],
            [15, 5, 1, 3, 7, 14, 6, 9, 11, 8, 12, 2, 10, 0, 4, 13],
            [8, 6, 4, 1, 3, 11, 15, 0, 5, 12, 2, 13, 9, 7, 10, 14],
            [12, 15, 10, 4, 1, 5, 8, 7, 6, 2, 13, 14, 0, 3, 9, 11],
        ]
    }

    fn shift() -> &'static [[u32; 16]; 5] {
        &[
            [8, 9, 9, 11, 13, 15, 15, 5, 7, 7, 8, 11, 14, 14, 12, 6],
            [9, 13, 15, 7, 12, 8, 9, 11, 7, 7, 12, 7, 6, 15, 13, 11],
            [9, 7, 15, 11, 8, 6, 6, 14, 12, 13, 5, 14, 13, 13, 7, 5],
            [15, 5, 8, 11, 14, 14, 6, 14, 6, 9, 12, 9, 12, 5, 15, 8],
            [8, 5, 12, 9, 12, 5, 14, 6, 8, 13, 6, 5, 15, 13, 11, 11],
        ]
    }

    ghost constants = { (refl, refl, refl) };

    ghost once = { once_right };

    ghost in_block = { within_right };
}

// The order in which a line takes the words of a block: the very table that its steps read.
pub fn order<L: Line>() -> [[usize; 16]; 5]
    ensures value { result ≡ L.tables.order }
    ensures once { EachOnce result }
{
    *L::order()
}
