// The 64 steps of a round, eight at a time. Of the schedule only a window of sixteen words is kept: a step past the first
// sixteen puts its word in the place of the oldest. Where eight steps begin is a const parameter, so that the constant of each
// step and the place of its word are known when the code is compiled; a loop of sixteen is not unrolled.
ghost use Rattle.std.specs.Prelude.{◌≡◌, ℕ, ◌+◌, ◌%◌, ◌<◌, ◌≤◌, List, take, slice_index};
ghost use Rattle.hash.specs.Meaning.{step as round};
ghost use Rattle.hash.specs.Rounds.{steps, added as closed};
ghost use Rattle.hash.specs.Windows.{renewed, Holds, Before};
ghost use Rattle.sha256.specs.Round.{mixed, one256, later, schedule};
ghost use Rattle.sha256.specs.Means.{meaning256};

use super::table::constant_at;
use super::words::*;
use hash::{ByteOrder, block_words, choose, majority, sum};

// One step, with its constant and its word of the schedule.
#[tactic(auto, unfolding(crate::specs::Round::mixed))]
fn step(s: [u32; 8], k: u32, w: u32) -> [u32; 8]
    ensures { result ≡ mixed s k w }
{
    let [a, b, c, d, e, f, g, h] = s;
    let t1 = sum(sum(sum(sum(h, big_sigma1(e)), choose(e, f, g)), k), w);
    let t2 = sum(big_sigma0(a), majority(a, b, c));
    [sum(t1, t2), a, b, c, sum(d, t1), e, f, g]
}

// Puts word t of the schedule in the place of the word sixteen before it.
#[tactic(auto, unfolding(crate::specs::Round::later, hash::specs::Windows::renewed))]
fn renew(window: &mut [u32; 16], t: usize)
    requires { (16 ≤ t) × (t < 64) }
    ensures { window.new ≡ renewed later window.old t }
{
    window[t % 16] = sum(
        sum(
            sum(small_sigma1(window[(t - 2) % 16]), window[(t - 7) % 16]),
            small_sigma0(window[(t - 15) % 16]),
        ),
        window[t % 16],
    );
}

// The word of step t, which is made first where it is past the first sixteen.
fn word_at(window: &mut [u32; 16], t: usize) -> u32
    requires { t < 64 }
    ensures held { (block : List ℕ) → Holds window.old (schedule block) t → Holds window.new (schedule block) (t + 1) }
    ensures word { (block : List ℕ) → Holds window.old (schedule block) t → result ≡ slice_index (schedule block) t }
{
    if t >= 16 {
        renew(window, t);
    }
    window[t % 16]
}

// Eight steps from step FROM on.
fn eight_steps<const FROM: usize>(s: &mut [u32; 8], window: &mut [u32; 16])
    requires { FROM ≤ 56 }
    ensures { (chain block : List ℕ) → Before one256 chain (schedule block) window.old s.old FROM → Before one256 chain (schedule block) window.new s.new (FROM + 8) }
{
    for t in FROM..FROM + 8 {
        let w = word_at(window, t);
        *s = step(*s, constant_at(t), w);
    }
}

// The words that all steps give from the eight of the chain.
fn all_steps(chain: &[u32; 8], block: &[u8; 64]) -> [u32; 8]
    ensures { result ≡ steps one256 (take 8 chain.now) (schedule block.now) 64 }
{
    let mut window = block_words(ByteOrder::HighFirst, block);
    let mut s = *chain;
    eight_steps::<0>(&mut s, &mut window);
    eight_steps::<8>(&mut s, &mut window);
    eight_steps::<16>(&mut s, &mut window);
    eight_steps::<24>(&mut s, &mut window);
    eight_steps::<32>(&mut s, &mut window);
    eight_steps::<40>(&mut s, &mut window);
    eight_steps::<48>(&mut s, &mut window);
    eight_steps::<56>(&mut s, &mut window);
    s
}

// Adds the words that the steps gave to those of the chain.
fn close(chain: &mut [u32; 8], last: &[u32; 8])
    ensures { chain.new ≡ closed chain.old last.now 8 }
{
    // by its place, since a zip with `iter_mut` does not tell what was written
    for (i, word) in last.iter().enumerate() {
        chain[i] = sum(chain[i], *word);
    }
}

// The round. It takes no added words.
pub(crate) fn compress(chain: &mut [u32; 8], added: &[u32; 8], block: &[u8; 64])
    ensures { chain.new ≡ round meaning256 chain.old added.now block.now }
{
    let last = all_steps(chain, block);
    close(chain, &last);
}
