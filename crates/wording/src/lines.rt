// The lines of a listing.
ghost use Rattle.message.specs.KnownEvents.{ReadingKnown};
ghost use Rattle.wording.specs.Lines.{Listed};

use crate::tally::Tally;
use message::{FaultCode, Follower, KnownEvent, MessageFault, Reader};
use std::fmt;

// What a listing says of one message: its ordinal, and the event that it carries or why it is refused. Any value that has
// words may stand for the event.
#[derive(Clone, Copy, Debug, PartialEq, Eq, Hash)]
pub struct Line<F, E = KnownEvent> {
    pub ordinal: u64,
    pub said: Result<E, F>,
}

// The line of the next message that a follower is given, which is counted unless it is refused.
pub fn list_by<T: Follower>(follower: &mut T, message: &[u8], tally: &mut Tally) -> Line<T::Fault>
    ensures follows { T.follows follower.old message.now result.said follower.new }
    ensures listed { Listed tally.old result tally.new }
{
    let ordinal = tally.messages;
    let said = follower.follow(message);
    if let Ok(known) = said {
        tally.note(known.kind);
    }
    Line { ordinal, said }
}

// The line of the next message, which is read and no more.
pub fn list(message: &[u8], tally: &mut Tally) -> Line<MessageFault>
    ensures reads { ReadingKnown message.now result.said }
    ensures listed { Listed tally.old result tally.new }
{
    list_by(&mut Reader, message, tally)
}

impl<F: Copy + fmt::Display + Into<FaultCode>, E: Copy + fmt::Display> fmt::Display for Line<F, E> {
    fn fmt<W: fmt::Write>(&self, f: &mut fmt::Formatter<W>) -> fmt::Result {
        let ordinal = self.ordinal;
        match self.said {
            Ok(event) => write!(f, "{ordinal}: {event}"),
            Err(fault) => {
                let code: FaultCode = fault.into();
                write!(f, "{ordinal}: refused, since {fault}: {code}")
            }
        }
    }
}
