// A load that is kept to be judged.
use crate::accesses::Access;
use crate::sources::Source;

// What a thread loaded in a run, and for each of its bytes the store of that run that gave it, as it was at the time of
// the load. A byte without one came from the memory as the run found it.
#[derive(Clone, Copy, Debug, PartialEq, Eq, Hash)]
pub struct Load {
    pub run: u8,
    pub thread: u8,
    pub access: Access,
    pub sources: [Option<Source>; 8],
}
