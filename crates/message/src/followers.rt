// What follows messages one by one.
ghost use Rattle.std.specs.Prelude.{ℕ, List, Result};
ghost use Rattle.message.specs.KnownEvents.{ReadingKnown};
ghost use Rattle.message.specs.declared.known.KnownEvent.{KnownEvent};

use crate::faults::MessageFault;
use crate::known::KnownEvent;

// A follower carries out each message, or refuses it with a fault of its own.
pub trait Follower {
    type Fault: Copy;

    // What it answers to a message, and what it is then.
    ghost follows: { Self → List ℕ → Result KnownEvent Self.Fault → Self → Type 0 };

    fn follow(&mut self, message: &[u8]) -> Result<KnownEvent, Self::Fault>
        ensures { follows self.old message.now result self.new };
}

// A follower that reads each message, and does no more.
#[derive(Clone, Copy, Debug, PartialEq, Eq, Hash)]
pub struct Reader;

impl Follower for Reader {
    type Fault = MessageFault;

    ghost follows = { λ _ message result _. ReadingKnown message result };

    fn follow(&mut self, message: &[u8]) -> Result<KnownEvent, MessageFault> {
        KnownEvent::read(message)
    }
}
