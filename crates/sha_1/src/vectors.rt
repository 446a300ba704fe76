// What the definition gives when it is run: the hashes of FIPS 180-4's two examples, and T0, T1 and T2 from their blocks.
ghost use Rattle.std.specs.Prelude.{◌≡◌, ℕ, ◌%◌, ◌<◌, [], ◌∷◌, codes};
ghost use Rattle.hash.specs.Meaning.{hashed};
ghost use Rattle.sha_1.specs.Means.{meaning1, strings1, block_of_string, string_of};

pub(crate) fn known() -> [[u8; 20]; 2]
    ensures { result ≡ hashed meaning1 (codes "abc") ∷ hashed meaning1 (codes "abcdbcdecdefdefgefghfghighijhijkijkljklmklmnlmnomnopnopq") ∷ [] }
{
    [
        [
            0xa9, 0x99, 0x3e, 0x36, 0x47, 0x06, 0x81, 0x6a, 0xba, 0x3e, 0x25, 0x71, 0x78, 0x50,
            0xc2, 0x6c, 0x9c, 0xd0, 0xd8, 0x9d,
        ],
        [
            0x84, 0x98, 0x3e, 0x44, 0x1c, 0x3b, 0xd2, 0x6e, 0xba, 0xae, 0x4a, 0xa1, 0xf9, 0x51,
            0x29, 0xe5, 0xe5, 0x46, 0x70, 0xf1,
        ],
    ]
}

const BLOCKS: [[u8; 64]; 3] = [
    *b"00abcdefghijklmnopqrstuvwxyzABCDEFGHIJKLMNOPQRSTUVWXYZ0123456789",
    *b"11abcdefghijklmnopqrstuvwxyzABCDEFGHIJKLMNOPQRSTUVWXYZ0123456789",
    *b"22abcdefghijklmnopqrstuvwxyzABCDEFGHIJKLMNOPQRSTUVWXYZ0123456789",
];

// The block that T_i comes from.
pub(crate) fn block_of(i: usize) -> [u8; 64]
    requires { i < 3 }
    ensures value { result ≡ block_of_string i }
    ensures rule { strings1 i ≡ string_of result }
{
    BLOCKS[i]
}
