// Service messages: what sixteen bytes carry, how an event is packed, and the messages of a recording.
#![tactic(auto)]

mod events;
mod faults;
mod fields;
mod followers;
mod kinds;
mod known;
mod layers;
mod memory;
mod packing;
mod reading;
mod recordings;
mod told;

pub use events::Event;
pub use faults::{FaultCode, FieldFault, MessageFault, PackFault};
pub use followers::{Follower, Reader};
pub use kinds::{KINDS, Kind, UnknownKind};
pub use known::KnownEvent;
pub use layers::Layer;
pub use memory::{LINES, MEMORY, THREADS, line_of};
pub use packing::pack;
pub use reading::{MESSAGE_LEN, read};
pub use recordings::{Part, Recording};
pub use told::Told;
