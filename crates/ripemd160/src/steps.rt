// The steps of RIPEMD-160: two lines of eighty on the sixteen words of a block, each in five rows of sixteen.
// The line and the row are known when the code is compiled, so that a row has the entries of its tables as constants. So is
// `KEYED`: a row without added words takes the constants of its steps as they stand.
ghost use Rattle.std.specs.Prelude.{◌≡◌, true, false, ◌+◌, ◌<◌, ◌≤◌, take};
ghost use Rattle.hash.specs.Words.{blank};
ghost use Rattle.ripemd160.specs.Round.{left, right, key as row_key, stepped, turned, steps, row as whole_row};

use super::mixer::Mixer;
use super::tables::{Left, Line, Right};
use hash::sum;

// One step on the five words of a line.
#[tactic(auto, unfolding(hash::specs::Words::rotl))]
fn one_step(s: [u32; 5], j: Mixer, x: u32, k: u32, n: u32) -> [u32; 5]
    ensures { result ≡ stepped s j x k n }
{
    let [a, b, c, d, e] = s;
    let t = sum(sum(sum(a, j.mix(b, c, d)), x), k).rotate_left(n);
    [e, sum(t, e), b, c.rotate_left(10), d]
}

// The constant of row R with its added word.
#[tactic(auto, using(hash::proofs::Sums::blank_at))]
fn key<L: Line, const R: usize, const KEYED: bool>(added: &[u32; 8]) -> u32
    requires row { R < 5 }
    requires plain { KEYED ≡ false → blank added.now ≡ true }
    ensures { result ≡ row_key L.tables (take 4 added.now) R }
{
    let word = if KEYED {
        added[(usize::from(L::FIRST_ADDED) + R) % 4]
    } else {
        0
    };
    sum(L::CONSTANTS[R], word)
}

// Step i of row R.
fn turn<L: Line, const R: usize>(s: [u32; 5], k: u32, xs: &[u32; 16], i: usize) -> [u32; 5]
    requires { (R < 5) × (i < 16) }
    ensures { result ≡ turned L.tables R k xs.now s i }
{
    one_step(s, L::MIXERS[R], xs[L::order()[R][i]], k, L::shift()[R][i])
}

// Eight steps of row R in both lines, from step F on. They are taken in turn, so that neither line waits for the other. Eight are
// unrolled whole, and sixteen are not; inlined, they keep the words of the lines in registers.
#[inline(always)]
#[tactic(auto, using(crate::proofs::Lines::steps_none, crate::proofs::Lines::steps_next))]
fn eight<const R: usize, const F: usize>(
    l: &mut [u32; 5],
    r: &mut [u32; 5],
    kl: u32,
    kr: u32,
    xs: &[u32; 16],
)
    requires { (R < 5) × (F + 8 ≤ 16) }
    ensures left { l.new ≡ steps left R kl xs.now l.old F 8 }
    ensures right { r.new ≡ steps right R kr xs.now r.old F 8 }
{
    for i in F..F + 8 {
        *l = turn::<Left, R>(*l, kl, xs, i);
        *r = turn::<Right, R>(*r, kr, xs, i);
    }
}

// Row R of both lines.
#[tactic(auto, using(crate::proofs::Lines::steps_steps), unfolding(crate::specs::Round::row))]
pub(crate) fn row<const R: usize, const KEYED: bool>(
    l: &mut [u32; 5],
    r: &mut [u32; 5],
    added: &[u32; 8],
    xs: &[u32; 16],
)
    requires row { R < 5 }
    requires plain { KEYED ≡ false → blank added.now ≡ true }
    ensures left { l.new ≡ whole_row left (take 4 added.now) xs.now l.old R }
    ensures right { r.new ≡ whole_row right (take 4 added.now) xs.now r.old R }
{
    let kl = key::<Left, R, KEYED>(added);
    let kr = key::<Right, R, KEYED>(added);
    eight::<R, 0>(l, r, kl, kr, xs);
    eight::<R, 8>(l, r, kl, kr, xs);
}
