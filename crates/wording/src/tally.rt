// How many messages of each kind were read.
ghost use Rattle.std.specs.Prelude.{◌≡◌, ◌+◌, ◌-◌, ◌<◌, min};
ghost use Rattle.message.specs.Kinds.{number_of};
ghost use Rattle.wording.specs.Counts.{Noted, count_of};

use message::{KINDS, Kind};
use std::fmt;

// How many messages in all, and of each kind in the order of their numbers. A count stays at the largest number once it
// is there.
#[derive(Clone, Copy, Debug, PartialEq, Eq, Hash)]
pub struct Tally {
    pub messages: u64,
    counts: [u64; KINDS],
}

fn place(kind: Kind) -> usize
    ensures place { result ≡ number_of kind - 1 }
    ensures within { result < 8 }
{
    kind as usize - 1
}

// One more, up to the largest number.
fn raised(count: u64) -> u64
    ensures { result ≡ min (count + 1) 18446744073709551615 }
{
    count.saturating_add(1)
}

impl Tally {
    pub fn new() -> Tally
        ensures messages { result.messages ≡ 0 }
        ensures counts { (k : Kind) → count_of result k ≡ 0 }
    {
        Tally {
            messages: 0,
            counts: [0; KINDS],
        }
    }

    pub fn of(&self, kind: Kind) -> u64
        ensures { result ≡ count_of self.now kind }
    {
        self.counts[place(kind)]
    }

    // One more message of a kind.
    pub(crate) fn note(&mut self, kind: Kind)
        ensures { Noted self.old kind self.new }
    {
        self.messages = raised(self.messages);
        let i = place(kind);
        self.counts[i] = raised(self.counts[i]);
    }
}

// A line for each kind.
impl fmt::Display for Tally {
    fn fmt<W: fmt::Write>(&self, f: &mut fmt::Formatter<W>) -> fmt::Result {
        for kind in Kind::ALL {
            let count = self.of(kind);
            writeln!(f, "  {kind}: {count}")?;
        }
        Ok(())
    }
}
