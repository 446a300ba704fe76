// The 80 steps of a round, five at a time. Of the schedule only a window of sixteen words is kept: a step past the first
// sixteen puts its word in the place of the oldest. Where five steps begin is a const parameter, so that the quarter of each
// step and the place of its word are known when the code is compiled; a loop of eight is not unrolled.
ghost use Rattle.std.specs.Prelude.{◌≡◌, ℕ, ◌+◌, ◌%◌, ◌<◌, ◌≤◌, List, true, false, take, slice_index};
ghost use Rattle.hash.specs.Meaning.{step as round};
ghost use Rattle.hash.specs.Words.{blank};
ghost use Rattle.hash.specs.Rounds.{steps, added as closed};
ghost use Rattle.hash.specs.Windows.{renewed, Holds, Before};
ghost use Rattle.sha_1.specs.Round.{keyed, mixed, one1, later, schedule};
ghost use Rattle.sha_1.specs.Means.{meaning1};

use super::words::logical_of;
use hash::{ByteOrder, block_words, none_added, sum};

// The four step constants.
const K: [u32; 4] = [0x5a827999, 0x6ed9eba1, 0x8f1bbcdc, 0xca62c1d6];

// The step constants with the added words on them; where no word is added, as they stand.
fn keys<const KEYED: bool>(added: &[u32; 8]) -> [u32; 4]
    requires { KEYED ≡ false → blank added.now ≡ true }
    ensures { result ≡ keyed (take 4 added.now) }
{
    if KEYED {
        [
            sum(K[0], added[0]),
            sum(K[1], added[1]),
            sum(K[2], added[2]),
            sum(K[3], added[3]),
        ]
    } else {
        K
    }
}

// One step in the quarter q, with its constant and its word of the schedule.
#[tactic(auto, unfolding(crate::specs::Round::mixed, hash::specs::Words::rotl))]
fn step(s: [u32; 5], q: usize, k: u32, w: u32) -> [u32; 5]
    ensures { result ≡ mixed s q k w }
{
    let [a, b, c, d, e] = s;
    let t = sum(
        sum(sum(sum(a.rotate_left(5), logical_of(q, b, c, d)), e), k),
        w,
    );
    [t, a, b.rotate_left(30), c, d]
}

// Puts word t of the schedule in the place of the word sixteen before it.
#[tactic(auto, unfolding(crate::specs::Round::later, hash::specs::Windows::renewed, hash::specs::Words::rotl))]
fn renew(window: &mut [u32; 16], t: usize)
    requires { (16 ≤ t) × (t < 80) }
    ensures { window.new ≡ renewed later window.old t }
{
    let mixed = window[(t - 3) % 16]
        ^ window[(t - 8) % 16]
        ^ window[(t - 14) % 16]
        ^ window[t % 16];
    window[t % 16] = mixed.rotate_left(1);
}

// The word of step t, which is made first where it is past the first sixteen.
fn word_at(window: &mut [u32; 16], t: usize) -> u32
    requires { t < 80 }
    ensures held { (block : List ℕ) → Holds window.old (schedule block) t → Holds window.new (schedule block) (t + 1) }
    ensures word { (block : List ℕ) → Holds window.old (schedule block) t → result ≡ slice_index (schedule block) t }
{
    if t >= 16 {
        renew(window, t);
    }
    window[t % 16]
}

// Five steps from step FROM on, which lie in one quarter.
fn five_steps<const FROM: usize>(s: &mut [u32; 5], keys: &[u32; 4], window: &mut [u32; 16])
    requires { (FROM < 80) × (FROM % 20 ≤ 15) }
    ensures { (chain block : List ℕ) → Before (one1 keys.now) chain (schedule block) window.old s.old FROM → Before (one1 keys.now) chain (schedule block) window.new s.new (FROM + 5) }
{
    let q = FROM / 20;
    for t in FROM..FROM + 5 {
        let w = word_at(window, t);
        *s = step(*s, q, keys[q], w);
    }
}

// The words that all steps give from the five of the chain.
fn all_steps<const KEYED: bool>(chain: [u32; 5], keys: &[u32; 4], block: &[u8; 64]) -> [u32; 5]
    ensures { result ≡ steps (one1 keys.now) chain (schedule block.now) 80 }
{
    let mut window = block_words(ByteOrder::HighFirst, block);
    let mut s = chain;
    five_steps::<0>(&mut s, keys, &mut window);
    five_steps::<5>(&mut s, keys, &mut window);
    five_steps::<10>(&mut s, keys, &mut window);
    five_steps::<15>(&mut s, keys, &mut window);
    five_steps::<20>(&mut s, keys, &mut window);
    five_steps::<25>(&mut s, keys, &mut window);
    five_steps::<30>(&mut s, keys, &mut window);
    five_steps::<35>(&mut s, keys, &mut window);
    five_steps::<40>(&mut s, keys, &mut window);
    five_steps::<45>(&mut s, keys, &mut window);
    five_steps::<50>(&mut s, keys, &mut window);
    five_steps::<55>(&mut s, keys, &mut window);
    five_steps::<60>(&mut s, keys, &mut window);
    five_steps::<65>(&mut s, keys, &mut window);
    five_steps::<70>(&mut s, keys, &mut window);
    five_steps::<75>(&mut s, keys, &mut window);
    s
}

// Adds the words that the steps gave to those of the chain.
fn close(chain: &mut [u32; 8], last: &[u32; 5])
    ensures { chain.new ≡ closed chain.old last.now 5 }
{
    // by its place, since a zip with `iter_mut` does not tell what was written
    for (i, word) in last.iter().enumerate() {
        chain[i] = sum(chain[i], *word);
    }
}

// The five words of the chain.
fn five(chain: &[u32; 8]) -> [u32; 5]
    ensures { result ≡ take 5 chain.now }
{
    *chain.first_chunk().unwrap()
}

// The round with the constants and added words in `keys`. The three words past the chain's five stay. `KEYED` only keeps two
// compiled copies apart.
fn run_steps<const KEYED: bool>(chain: &mut [u32; 8], keys: &[u32; 4], block: &[u8; 64])
    ensures { chain.new ≡ closed chain.old (steps (one1 keys.now) (take 5 chain.old) (schedule block.now) 80) 5 }
{
    let last = all_steps::<KEYED>(five(chain), keys, block);
    close(chain, &last);
}

// The round. Without added words, as in the plain hash, each step has a constant that is known when it is compiled, which takes one
// instruction less a step: so rounds with and without such words are compiled apart. The keys are made here and lent: made where the
// steps are, they would take registers from these.
pub(crate) fn compress(chain: &mut [u32; 8], added: &[u32; 8], block: &[u8; 64])
    ensures { chain.new ≡ round meaning1 chain.old added.now block.now }
{
    if none_added(added) {
        run_steps::<false>(chain, &keys::<false>(added), block);
    } else {
        run_steps::<true>(chain, &keys::<true>(added), block);
    }
}
