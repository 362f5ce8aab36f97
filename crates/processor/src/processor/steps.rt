// The steps of the processor: each is a step of the machine, and they compose.
ghost use Rattle.std.specs.Prelude.{◌≡◌, ◌+◌, ◌<◌, ◌≤◌, length, MatchResult};
ghost use Rattle.processor.specs.Laws.{Laws};
ghost use Rattle.processor.specs.Machine.{opened, acted, drained, fenced, row};
ghost use Rattle.processor.specs.Operations.{Performs};
ghost use Rattle.processor.specs.Sources.{from_cached, from_departure, last_of, source, sources_of};
ghost use Rattle.processor.specs.declared.faults.CaseFault.TheVariants as fault;
ghost use Rattle.processor.specs.declared.operations.Operation.TheVariants as asked;

use super::Processor;
use crate::accesses::Access;
use crate::buffers::Buffers;
use crate::departures::Departure;
use crate::entries::Entry;
use crate::faults::{BufferFault, CaseFault};
use crate::history::{CUTS, History, MOMENTS};
use crate::loads::Load;
use crate::numbers::Thread;
use crate::operations::Operation;
use crate::sources::{Source, last_cached, last_waiting};
use tables::Table;

const NO_LOAD: Load = Load {
    run: 0,
    thread: 0,
    access: Access {
        address: 0,
        width: 0,
        value: [0; 8],
    },
    sources: [None; 8],
};

impl Processor {
    // A case before its first message.
    pub fn open() -> Processor
        ensures opened { result ≡ opened }
        ensures laws { Laws }
    {
        Processor {
            history: History::new(),
            buffers: Buffers::new(),
            loads: Table::new(NO_LOAD),
            accepted: 0,
        }
    }

    // An entry of a thread takes the next moment and acts.
    fn act(&mut self, thread: Thread, entry: Entry)
        requires { length self.old.left < 512 }
        ensures { self.new ≡ acted thread entry self.old }
    {
        self.history.leave(thread, entry);
    }

    // The oldest entry of a thread leaves; where none waits, nothing changes.
    fn leave(&mut self, thread: Thread)
        requires { length self.old.left < 512 }
        ensures { self.new ≡ drained thread self.old }
    {
        if let Some(entry) = self.buffers.drain(thread) {
            self.history.leave(thread, entry);
        }
    }

    // All of the thread's entries leave in order, and then the fence takes a moment.
    fn fence(&mut self, thread: Thread)
        requires { length self.old.left + length (row self.old thread) < 512 }
        ensures { self.new ≡ fenced thread self.old }
    {
        for _ in 0..self.buffers.row(thread).len() {
            self.leave(thread);
        }
        self.act(thread, Entry::StoreFence);
    }

    // Which store of the present run gives a thread the byte at an address, given as much of what left as that needs.
    fn source(&self, thread: Thread, at: u16, reach: &[Departure]) -> Option<Source>
        requires { last_of (from_departure at) reach.now ≡ last_of (from_cached self.now.run at) self.now.left }
        ensures { result ≡ source self.now thread at }
    {
        let waiting = last_waiting(self.buffers.row(thread), at);
        waiting.or(last_cached(reach, at))
    }

    // The same for each byte of an access.
    fn sources(&self, thread: Thread, access: &Access) -> [Option<Source>; 8]
        ensures { result ≡ sources_of self.now thread access.now }
    {
        let reach = self.history.reach(access);
        let mut sources = [None; 8];
        for place in 0..access.width as usize {
            sources[place] = self.source(thread, access.address + place as u16, reach);
        }
        sources
    }

    // An entry enters its thread's buffer.
    fn enter(&mut self, thread: Thread, entry: Entry) -> Result<(), CaseFault>
        ensures { Performs (asked.Enter thread entry) self.old result self.new }
    {
        self.buffers.push(thread, entry)?;
        Ok(())
    }

    // Refuses more moments than are left.
    fn check_moments(&self, needed: usize) -> Result<(), CaseFault>
        ensures { MatchResult result (λ _. length self.now.left + needed ≤ 512) (λ f. (f ≡ fault.Moments self.now.run) × (512 < length self.now.left + needed)) }
    {
        if MOMENTS - self.history.taken() < needed {
            return Err(CaseFault::Moments {
                run: self.history.run(),
            });
        }
        Ok(())
    }

    // The oldest of a thread's waiting entries leaves.
    fn drain(&mut self, thread: Thread) -> Result<(), CaseFault>
        ensures { Performs (asked.Drain thread) self.old result self.new }
    {
        if self.buffers.row(thread).is_empty() {
            return Err(CaseFault::from(BufferFault::Empty {
                thread: u8::from(thread),
            }));
        }
        self.check_moments(1)?;
        self.leave(thread);
        Ok(())
    }

    // A full fence, unless the moments that it needs are too many.
    fn full_fence(&mut self, thread: Thread) -> Result<(), CaseFault>
        ensures { Performs (asked.FullFence thread) self.old result self.new }
    {
        let leaving = self.buffers.row(thread).len();
        self.check_moments(leaving + 1)?;
        self.fence(thread);
        Ok(())
    }

    // A load is kept, with the stores of this run that give its bytes.
    fn keep_load(&mut self, thread: Thread, access: Access) -> Result<(), CaseFault>
        ensures { Performs (asked.Load thread access) self.old result self.new }
    {
        let run = self.history.run();
        let sources = self.sources(thread, &access);
        let load = Load {
            run,
            thread: u8::from(thread),
            access,
            sources,
        };
        self.loads.push(load).map_err(|_| CaseFault::Loads { run })
    }

    // A cut closes the run, and loses the buffers; flush sets go with the run.
    fn cut(&mut self) -> Result<(), CaseFault>
        ensures { Performs asked.PowerCut self.old result self.new }
    {
        if self.history.run() >= CUTS {
            return Err(CaseFault::Cuts {
                run: self.history.run(),
            });
        }
        self.history.close();
        self.buffers.clear_all();
        Ok(())
    }

    // What a message asks.
    pub(super) fn perform(&mut self, operation: Operation) -> Result<(), CaseFault>
        ensures { Performs operation self.old result self.new }
    {
        match operation {
            Operation::Enter { thread, entry } => self.enter(thread, entry),
            Operation::Drain { thread } => self.drain(thread),
            Operation::FullFence { thread } => self.full_fence(thread),
            Operation::Load { thread, access } => self.keep_load(thread, access),
            Operation::PowerCut => self.cut(),
        }
    }
}
