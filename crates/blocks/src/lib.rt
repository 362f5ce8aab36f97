// The bytes that come in through a reader, by blocks.
#![tactic(auto)]

mod blocks;
mod fill;

pub use blocks::{BLOCK, Blocks};
