// What waits in a store buffer.
use crate::accesses::Access;
use crate::numbers::CacheLine;

#[derive(Clone, Copy, Debug, PartialEq, Eq, Hash)]
pub enum Entry {
    Store(Access),
    StrongFlush { line: CacheLine },
    WeakFlush { line: CacheLine },
    StoreFence,
}
