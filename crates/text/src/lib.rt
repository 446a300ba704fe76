// Bytes of text: pieces that one byte parts, decimal numbers, and bytes as upper-case hexadecimal pairs.
#![tactic(auto)]

pub use decimal::{number_in, put_decimal};
pub use hex::{bytes_in, bytes_into, pair_value, put_hex};
pub use pieces::{split, split_first};

mod decimal;
mod hex;
mod pieces;
