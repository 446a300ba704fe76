// The node that a node line asks for.
use tags::{AlgorithmKind, HashKind};

// An algorithm over a hash, the length of a tag and the node's own address.
#[derive(Clone, Copy)]
pub(crate) struct Making {
    pub(crate) algorithm: AlgorithmKind,
    pub(crate) hash: HashKind,
    pub(crate) t: usize,
    pub(crate) address: u16,
}
