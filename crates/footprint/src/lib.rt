// The lamp has 4,096 bytes in all: node, work block, the longest frame and the stack of the deepest call. The sizes below are
// those of 64-bit words; a lamp's words are no wider.
#![tactic(auto)]

#[cfg(test)]
mod tests {
    use hmac::Hmac;
    use mdxmac::{MdxMac, ShortMac};
    use node::Node;
    use ripemd160::Ripemd160;
    use sha_1::Sha1;
    use sha256::Sha256;
    use std::mem::size_of;

    const SIZES: [usize; 9] = [
        size_of::<Node<Ripemd160, MdxMac>>(),
        size_of::<Node<Ripemd160, Hmac>>(),
        size_of::<Node<Ripemd160, ShortMac>>(),
        size_of::<Node<Sha1, MdxMac>>(),
        size_of::<Node<Sha1, Hmac>>(),
        size_of::<Node<Sha1, ShortMac>>(),
        size_of::<Node<Sha256, MdxMac>>(),
        size_of::<Node<Sha256, Hmac>>(),
        size_of::<Node<Sha256, ShortMac>>(),
    ];

    const LAMP: usize = 4096;

    const WORK: usize = 64;

    const LONGEST_FRAME: usize = 8 + 255 + 32;

    // Kept for the stack of the deepest call.
    const STACK: usize = 2048;

    #[test]
    fn every_node_leaves_room_for_the_stack(rt: HostRuntime) {
        for size in SIZES {
            assert_eq!(rt; size, 1424);
            assert!(rt; size <= LAMP - WORK - LONGEST_FRAME - STACK);
        }
    }
}
