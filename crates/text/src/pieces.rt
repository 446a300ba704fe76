// Parts a text at the places of one byte.
ghost use Rattle.std.specs.Prelude.{◌≡◌, ◌+◌, ◌<◌, [], ◌∷◌, map, length, IfSome, IfOk, MatchOption, ◌==◌, position};
ghost use Rattle.text.specs.Pieces.{pieces};

use std::alloc::{AllocError, Global};

// The first place of a byte.
fn place_of(text: &[u8], c: u8) -> Option<usize>
    ensures { result ≡ position (λ b. b == c) text.now }
{
    text.iter().position(|b| *b == c)
}

// The first piece and the text after it, where the byte `c` parts the text.
#[tactic(auto, using(crate::proofs::Cuts::pieces_cut, crate::proofs::Cuts::pieces_none))]
pub fn split_first(text: &[u8], c: u8) -> Option<(&[u8], &[u8])>
    ensures parts { MatchOption result (pieces c text.now ≡ text.now ∷ []) (λ p. pieces c text.now ≡ p.0.now ∷ pieces c p.1.now) }
    ensures shorter { IfSome result (λ p. length p.0.now + length p.1.now < length text.now) }
{
    let at = place_of(text, c)?;
    Some((&text[..at], &text[at + 1..]))
}

fn part(heap: Global, text: &[u8], c: u8) -> Result<Vec<&[u8]>, AllocError>
    ensures { IfOk result (λ v. map (λ p. p.now) v.items ≡ pieces c text.now) }
{
    text.split(|b| *b == c).collect(heap)
}

// What stands between the bytes `c` of a text, one piece more than there are of them.
pub fn split(heap: Global, text: &[u8], c: u8) -> Result<Vec<&[u8]>, AllocError>
    ensures { IfOk result (λ v. map (λ p. p.now) v.items ≡ pieces c text.now) }
{
    part(heap, text, c)
}
