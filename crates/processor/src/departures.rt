// What has left a store buffer.
use crate::entries::Entry;

// An entry of a thread that left at a moment of a run. A store has been cached then; a full fence stands as a store fence.
#[derive(Clone, Copy, Debug, PartialEq, Eq, Hash)]
pub struct Departure {
    pub run: u8,
    pub moment: u16,
    pub thread: u8,
    pub entry: Entry,
}
