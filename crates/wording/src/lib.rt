// The lines of a listing, and how many messages of each kind there were.
#![tactic(auto)]

mod lines;
mod tally;
#[cfg(test)]
mod tests;

pub use lines::{Line, list, list_by};
pub use message::Told;
pub use tally::Tally;
