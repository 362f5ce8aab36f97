// The four threads' store buffers: at most eight waiting entries each, oldest first.
use crate::entries::Entry;
use crate::numbers::THREADS;
use tables::Table;

mod ops;

// How many entries may wait in one buffer.
const ROOM: usize = 8;

// One table, a row for each thread.
#[derive(Drop)]
pub(crate) struct Buffers {
    rows: [Table<Entry, ROOM>; THREADS],
}
