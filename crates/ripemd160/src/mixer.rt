// The five functions of the steps.
ghost use Rattle.std.specs.Prelude.{◌≡◌};
ghost use Rattle.ripemd160.specs.Round.{mix as mixed};

use hash::choose;

#[derive(Clone, Copy)]
pub enum Mixer {
    Parity,
    Choose,
    Either,
    Select,
    Last,
}

impl Mixer {
    #[tactic(auto, using(std::proofs::lemmas::Nat::and_comm), unfolding(hash::specs::Words::negated))]
    pub(crate) fn mix(self, x: u32, y: u32, z: u32) -> u32
        ensures { result ≡ mixed self x y z }
    {
        match self {
            Mixer::Parity => x ^ y ^ z,
            Mixer::Choose => choose(x, y, z),
            Mixer::Either => (x | !y) ^ z,
            Mixer::Select => choose(z, x, y),
            Mixer::Last => x ^ (y | !z),
        }
    }
}
