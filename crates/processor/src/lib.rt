// The processor: store buffers, runs with their cached stores and floors, flush sets and kept loads.
#![tactic(auto)]

mod accesses;
mod buffers;
mod departures;
mod entries;
mod faults;
mod floors;
mod history;
mod loads;
mod numbers;
mod operations;
mod processor;
mod sources;
mod words;

pub use accesses::Access;
pub use departures::Departure;
pub use entries::Entry;
pub use faults::{BufferFault, CaseFault};
pub use history::RUNS;
pub use loads::Load;
pub use numbers::{Below, CacheLine, NotBelow, Thread};
pub use operations::Operation;
pub use processor::{Playback, Processor};
pub use sources::Source;
pub use words::{EntryName, SourceName};
