// Tables of fixed room.
#![tactic(auto)]

mod full;
mod table;

pub use full::Full;
pub use table::Table;
