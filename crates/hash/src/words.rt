// Functions of words of 32 bits that the rounds of several hashes have.
ghost use Rattle.std.specs.Prelude.{◌≡◌, ℕ, bit_and, bit_or};
ghost use Rattle.hash.specs.Words.{plus, negated};
ghost use Rattle.hash.specs.Rounds.{ch, maj};

// The sum modulo 2^32.
#[tactic(auto, unfolding(crate::specs::Words::plus))]
pub fn sum(x: u32, y: u32) -> u32
    ensures { result ≡ plus x y }
{
    x.wrapping_add(y)
}

// The bits of y where x has a one, and those of z where it has a zero.
#[tactic(auto, using(crate::proofs::Bitwise::chosen, crate::proofs::Bitwise::either))]
pub fn choose(x: u32, y: u32, z: u32) -> u32
    ensures exclusive { result ≡ ch x y z }
    ensures either { result ≡ bit_or (bit_and x y) (bit_and (negated x) z) }
{
    (x & (y ^ z)) ^ z
}

// The bits that most of the three words have.
#[tactic(auto, using(crate::proofs::Bitwise::most))]
pub fn majority(x: u32, y: u32, z: u32) -> u32
    ensures { result ≡ maj x y z }
{
    (y & z) ^ ((y ^ z) & x)
}
