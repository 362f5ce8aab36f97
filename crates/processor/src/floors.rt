// The count of a run and the floors of its lines, from what has left.
ghost use Rattle.std.specs.Prelude.{◌≡◌, ◌<◌, ◌≤◌, length};
ghost use Rattle.processor.specs.Departures.{count, floor, raised};
ghost use Rattle.processor.specs.FloorPass.{noted, passed, unflushed};
ghost use Rattle.processor.specs.History.{OfThreads};

use crate::departures::Departure;
use crate::entries::Entry;
use crate::numbers::THREADS;

// What decides a thread's flushes of one line, after a part of a run: the moments of its last fence and of its last cached
// store or strong flush on the line, and the largest mark of the line in its flush set.
#[derive(Clone, Copy)]
pub(crate) struct ThreadFlushes {
    fence: u16,
    write: u16,
    mark: u16,
}

// The floor of one line, with what decides each thread's flushes of it.
#[derive(Clone, Copy)]
pub(crate) struct LineFlushes {
    floor: u16,
    threads: [ThreadFlushes; THREADS],
}

impl ThreadFlushes {
    // An entry of the thread leaves.
    fn note(&mut self, departure: &Departure, line: u8)
        ensures { self.new ≡ noted line departure.now.entry departure.now.moment self.old }
    {
        match departure.entry {
            Entry::Store(access) => {
                if access.line() == line {
                    self.write = departure.moment;
                }
            }
            Entry::StrongFlush { line: flushed } => {
                if u8::from(flushed) == line {
                    self.write = departure.moment;
                }
            }
            Entry::WeakFlush { line: flushed } => {
                if u8::from(flushed) == line {
                    self.mark = self.mark.max(self.fence.max(self.write));
                }
            }
            Entry::StoreFence => {
                self.fence = departure.moment;
                self.mark = 0;
            }
        }
    }
}

// The floor of a line once an entry leaves, where `mark` is that of the line in its thread's flush set.
fn raise(floor: u16, departure: &Departure, mark: u16, line: u8) -> u16
    ensures { result ≡ raised line departure.now.entry departure.now.moment mark floor }
{
    match departure.entry {
        Entry::StrongFlush { line: flushed } => {
            if u8::from(flushed) == line {
                departure.moment
            } else {
                floor
            }
        }
        Entry::StoreFence => floor.max(mark),
        Entry::Store(_) | Entry::WeakFlush { line: _ } => floor,
    }
}

impl LineFlushes {
    fn new() -> LineFlushes
        ensures { result ≡ unflushed }
    {
        let none = ThreadFlushes {
            fence: 0,
            write: 0,
            mark: 0,
        };
        LineFlushes {
            floor: 0,
            threads: [none; THREADS],
        }
    }

    // One more leaves.
    fn note(&mut self, departure: &Departure, line: u8)
        requires { departure.now.thread < 4 }
        ensures { self.new ≡ passed line departure.now self.old }
    {
        let thread = departure.thread as usize;
        let mark = self.threads[thread].mark;
        self.floor = raise(self.floor, departure, mark, line);
        self.threads[thread].note(departure, line);
    }
}

// The floor of a line in a run.
pub(crate) fn floor_of(left: &[Departure], run: u8, line: u8) -> u16
    requires { OfThreads left.now }
    ensures { result ≡ floor run line left.now }
{
    let mut flushes = LineFlushes::new();
    for departure in left {
        if departure.run == run {
            flushes.note(departure, line);
        }
    }
    flushes.floor
}

// How many left in a run.
pub(crate) fn count_of(left: &[Departure], run: u8) -> u16
    requires { length left.now ≤ 512 }
    ensures { result ≡ count run left.now }
{
    let mut count = 0;
    for departure in left {
        if departure.run == run {
            count += 1;
        }
    }
    count
}
