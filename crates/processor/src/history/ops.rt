// What the history does: an entry leaves, a run is closed, and what follows from all that left.
ghost use Rattle.std.specs.Prelude.{◌≡◌, ◌<◌, [], length};
ghost use Rattle.processor.specs.Departures.{count, floor, of_run};
ghost use Rattle.processor.specs.History.{Recorded, past, left_next, closed};
ghost use Rattle.processor.specs.Sources.{Reaches};

use super::History;
use crate::accesses::Access;
use crate::departures::Departure;
use crate::entries::Entry;
use crate::floors::{count_of, floor_of};
use crate::numbers::Thread;
use crate::sources::up_to_last;
use tables::Table;

const NO_DEPARTURE: Departure = Departure {
    run: 0,
    moment: 0,
    thread: 0,
    entry: Entry::StoreFence,
};

impl History {
    pub(crate) fn new() -> History
        ensures { result ≡ past 0 [] }
    {
        History {
            run: 0,
            present_count: 0,
            left: Table::new(NO_DEPARTURE),
        }
    }

    pub(crate) fn run(&self) -> u8
        ensures { result ≡ self.now.run }
    {
        self.run
    }

    // How many moments are taken in all runs.
    pub(crate) fn taken(&self) -> usize
        ensures { result ≡ length self.now.left }
    {
        self.left.len()
    }

    // All that left, oldest first.
    pub(crate) fn as_slice(&self) -> &[Departure]
        ensures left { result.now ≡ self.now.left }
        ensures past { Recorded self.now.run self.now.left }
    {
        self.left.as_slice()
    }

    // The count of a run.
    pub(crate) fn count(&self, run: u8) -> u16
        ensures { result ≡ count run self.now.left }
    {
        count_of(self.left.as_slice(), run)
    }

    // The floor of a line in a run.
    pub(crate) fn floor(&self, run: u8, line: u8) -> u16
        ensures { result ≡ floor run line self.now.left }
    {
        floor_of(self.left.as_slice(), run, line)
    }

    // What left in the present run.
    fn present(&self) -> &[Departure]
        ensures { result.now ≡ of_run self.now.run self.now.left }
    {
        let closed = self.left.len() - self.present_count as usize;
        &self.left.as_slice()[closed..]
    }

    // As much of that as the bytes of an access need.
    pub(crate) fn reach(&self, access: &Access) -> &[Departure]
        ensures { Reaches self.now.run self.now.left access.now result.now }
    {
        up_to_last(self.present(), access)
    }

    // An entry of a thread leaves at the next moment of the present run.
    pub(crate) fn leave(&mut self, thread: Thread, entry: Entry)
        requires { length self.old.left < 512 }
        ensures { self.new ≡ left_next thread entry self.old }
    {
        let moment = self.present_count + 1;
        let run = self.run;
        let Ok(()) = self.left.push(Departure {
            run,
            moment,
            thread: u8::from(thread),
            entry,
        })
        else {
            unreachable()
        };
        self.present_count = moment;
    }

    // A cut closes the present run, and the next one begins.
    pub(crate) fn close(&mut self)
        requires { self.old.run < 4 }
        ensures { self.new ≡ closed self.old }
    {
        self.run += 1;
        self.present_count = 0;
    }
}
