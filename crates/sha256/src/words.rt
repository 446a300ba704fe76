// The functions of words that the round is made of.
ghost use Rattle.std.specs.Prelude.{◌≡◌};
ghost use Rattle.sha256.specs.Round.{Sigma0, Sigma1, sigma0, sigma1};

// The four sigmas. Each rotation but the first is of what the one before gave, which spares moves between registers.

#[tactic(auto, using(crate::proofs::Rotations::big0))]
pub(crate) fn big_sigma0(x: u32) -> u32
    ensures { result ≡ Sigma0 x }
{
    ((x.rotate_right(9) ^ x).rotate_right(11) ^ x).rotate_right(2)
}

#[tactic(auto, using(crate::proofs::Rotations::big1))]
pub(crate) fn big_sigma1(x: u32) -> u32
    ensures { result ≡ Sigma1 x }
{
    ((x.rotate_right(14) ^ x).rotate_right(5) ^ x).rotate_right(6)
}

#[tactic(auto, using(crate::proofs::Rotations::small0))]
pub(crate) fn small_sigma0(x: u32) -> u32
    ensures { result ≡ sigma0 x }
{
    (x.rotate_right(11) ^ x).rotate_right(7) ^ (x >> 3)
}

#[tactic(auto, using(crate::proofs::Rotations::small1))]
pub(crate) fn small_sigma1(x: u32) -> u32
    ensures { result ≡ sigma1 x }
{
    (x.rotate_right(2) ^ x).rotate_right(17) ^ (x >> 10)
}
