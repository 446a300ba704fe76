// The line of an input that no newline has ended yet. It takes the same memory however long the line becomes.
ghost use Rattle.std.specs.Prelude.{◌≤◌};

mod feed;

// The first bytes of the line, one more than the longest line has: so much tells that a line is too long. They are the
// first `len` of a place of fixed size, which no vector of the standard library keeps.
#[derive(Drop)]
pub struct Lines {
    held: [u8; 1025],
    len: usize,
    ghost fits: { len ≤ 1025 },
}
