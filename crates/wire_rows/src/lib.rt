// The rows of a table of examples that ask to read or pack a message or to take a recording apart, and what is answered.
//
//     read HEX                                       the event, or the fault and why
//     pack KIND THREAD ADDRESS WIDTH VALUE LENGTH    the memory of that length after packing, or the fault and the memory
//     parts LENGTH                                   the parts of a recording of that length: ordinal, first byte, length
#![tactic(auto)]

mod answers;
mod hex;
mod rows;
#[cfg(test)]
mod tests;

pub use answers::{Answer, Code};
pub use hex::bytes_of;
pub use rows::Row;
