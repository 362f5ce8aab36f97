// What a case holds, for whoever asks. The clauses `past` and `facts` hold of every case.
ghost use Rattle.std.specs.Prelude.{◌≡◌, ◌≤◌};
ghost use Rattle.processor.specs.Departures.{count, floor};
ghost use Rattle.processor.specs.History.{Recorded};
ghost use Rattle.processor.specs.Machine.{row};
ghost use Rattle.processor.specs.Sound.{Facts};

use super::Processor;
use crate::departures::Departure;
use crate::entries::Entry;
use crate::loads::Load;
use crate::numbers::Thread;

impl Processor {
    // The number of the present run, and so of the cuts made.
    pub fn run(&self) -> u8
        ensures run { result ≡ self.now.run }
        ensures within { result ≤ 4 }
        ensures facts { Facts self.now }
    {
        self.history.run()
    }

    // How many messages were accepted.
    pub fn accepted(&self) -> u32
        ensures accepted { result ≡ self.now.accepted }
        ensures facts { Facts self.now }
    {
        self.accepted
    }

    // The last moment taken in a run; 0 for a run that has not begun.
    pub fn count(&self, run: u8) -> u16
        ensures { result ≡ count run self.now.left }
    {
        self.history.count(run)
    }

    // The floor of a line in a run; 0 for a run that has not begun, and for a line that there is not.
    pub fn floor(&self, run: u8, line: u8) -> u16
        ensures { result ≡ floor run line self.now.left }
    {
        self.history.floor(run, line)
    }

    // What has left the buffers in all runs, the cached stores among it, oldest first.
    pub fn left(&self) -> &[Departure]
        ensures left { result.now ≡ self.now.left }
        ensures past { Recorded self.now.run self.now.left }
        ensures facts { Facts self.now }
    {
        self.history.as_slice()
    }

    // The kept loads, oldest first.
    pub fn loads(&self) -> &[Load]
        ensures loads { result.now ≡ self.now.loads }
        ensures facts { Facts self.now }
    {
        self.loads.as_slice()
    }

    // The waiting entries of a thread, oldest first; none for a thread that there is not.
    pub fn waiting(&self, thread: u8) -> &[Entry]
        ensures row { result.now ≡ row self.now thread }
        ensures facts { Facts self.now }
    {
        match Thread::try_from(thread) {
            Ok(thread) => self.buffers.row(thread),
            Err(_) => &[],
        }
    }
}
