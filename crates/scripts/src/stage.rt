// How far a script has come.
use refusals::Refusal;

#[derive(Clone, Copy)]
pub(crate) enum Stage {
    // No node line came yet.
    Waiting,
    // The making of the node was refused.
    Refusing(Refusal),
    // There is a node with tags of so many bytes, after so many calls.
    Working(usize, usize),
}
