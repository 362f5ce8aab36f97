// The lines of a listing that follows the processor.
#![tactic(auto)]

mod lines;
#[cfg(test)]
mod tests;

pub use lines::list;
pub use processor::{EntryName, SourceName};
pub use wording::Line;
