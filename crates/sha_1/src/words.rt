// The functions of words that the round is made of.
ghost use Rattle.std.specs.Prelude.{◌≡◌};
ghost use Rattle.sha_1.specs.Round.{logical};

use hash::{choose, majority};

// f of the steps of the quarter q.
pub(crate) fn logical_of(q: usize, x: u32, y: u32, z: u32) -> u32
    ensures { result ≡ logical q x y z }
{
    match q {
        0 => choose(x, y, z),
        2 => majority(x, y, z),
        _ => x ^ y ^ z,
    }
}
