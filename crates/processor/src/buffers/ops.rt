// What the buffers do: an entry waits, the oldest leaves, all are lost.
ghost use Rattle.std.specs.Prelude.{◌≡◌, ◌<◌, [], replicate, MatchOption, MatchResult, slice_set};
ghost use Rattle.processor.specs.Waiting.{row_of, Pushed, PushRefused, Drained};

use super::Buffers;
use crate::entries::Entry;
use crate::faults::BufferFault;
use crate::numbers::Thread;
use std::array;
use tables::Table;

impl Buffers {
    pub(crate) fn new() -> Buffers
        ensures { result.rows ≡ replicate 4 [] }
    {
        Buffers {
            rows: array::from_fn(|_| Table::new(Entry::StoreFence)),
        }
    }

    // The waiting entries of a thread, oldest first.
    pub(crate) fn row(&self, thread: Thread) -> &[Entry]
        ensures { result.now ≡ row_of self.now.rows thread }
    {
        self.rows[thread.index()].as_slice()
    }

    // An entry waits last in its thread's row, or nothing is changed; no other row is changed.
    pub(crate) fn push(&mut self, thread: Thread, entry: Entry) -> Result<(), BufferFault>
        ensures there { thread < 4 }
        ensures pushed { MatchResult result (λ _. Pushed self.old.rows thread entry self.new.rows) (λ f. PushRefused self.old.rows thread f × (self.new.rows ≡ self.old.rows)) }
    {
        self.rows[thread.index()]
            .push(entry)
            .map_err(|_| BufferFault::Full {
                thread: u8::from(thread),
            })
    }

    // The oldest entry of a thread leaves its row, and no other row is changed.
    pub(crate) fn drain(&mut self, thread: Thread) -> Option<Entry>
        ensures { MatchOption result ((row_of self.old.rows thread ≡ []) × (self.new.rows ≡ self.old.rows)) (λ e. Drained self.old.rows thread e self.new.rows) }
    {
        self.rows[thread.index()].take_first()
    }

    // A thread's entries are lost, and no other row is changed.
    fn clear(&mut self, thread: Thread)
        ensures { self.new.rows ≡ slice_set self.old.rows thread [] }
    {
        self.rows[thread.index()].clear();
    }

    // The entries of every thread are lost.
    pub(crate) fn clear_all(&mut self)
        ensures { self.new.rows ≡ replicate 4 [] }
    {
        for thread in Thread::ALL {
            self.clear(thread);
        }
    }
}
