// What a message asks of the processor.
ghost use Rattle.std.specs.Prelude.{◌≡◌, ◌<◌, MatchResult};
ghost use Rattle.processor.specs.Logging.{Heard, NotHeard};
ghost use Rattle.processor.specs.Memory.{line, InLine};
ghost use Rattle.processor.specs.Operations.{access_of, operation, InRange};
ghost use Rattle.processor.specs.declared.operations.Operation.TheVariants as asked;

use crate::accesses::Access;
use crate::entries::Entry;
use crate::faults::BufferFault;
use crate::numbers::{CacheLine, Thread};
use message::{Event, Kind, KnownEvent};

#[derive(Clone, Copy, Debug, PartialEq, Eq, Hash)]
pub enum Operation {
    Enter { thread: Thread, entry: Entry },
    Drain { thread: Thread },
    FullFence { thread: Thread },
    Load { thread: Thread, access: Access },
    PowerCut,
}

// The bytes that a store or load names.
fn access_of(event: &Event) -> Access
    requires { InLine (access_of event.now) }
    ensures { result ≡ access_of event.now }
{
    let value = event.value.to_le_bytes();
    Access {
        address: event.address,
        width: event.width,
        value,
    }
}

// The thread that an event names.
fn thread_of(event: &Event) -> Thread
    requires { event.now.thread < 4 }
    ensures { result ≡ event.now.thread }
{
    Thread::new(event.thread)
}

// The line of the address that an event names.
fn line_of(event: &Event) -> CacheLine
    requires { event.now.address < 4096 }
    ensures { result ≡ line event.now.address }
{
    CacheLine::new(message::line_of(event.address) as u8)
}

// An entry enters the buffer of the event's thread.
fn enter(event: &Event, entry: Entry) -> Operation
    requires { event.now.thread < 4 }
    ensures { result ≡ asked.Enter event.now.thread entry }
{
    Operation::Enter {
        thread: thread_of(event),
        entry,
    }
}

// What an event asks.
pub(crate) fn operation_of(known: &KnownEvent) -> Operation
    requires { InRange (operation known.now.kind known.now.event) }
    ensures { result ≡ operation known.now.kind known.now.event }
{
    let event = &known.event;
    match known.kind {
        Kind::Store => enter(event, Entry::Store(access_of(event))),
        Kind::StrongFlush => enter(
            event,
            Entry::StrongFlush {
                line: line_of(event),
            },
        ),
        Kind::WeakFlush => enter(
            event,
            Entry::WeakFlush {
                line: line_of(event),
            },
        ),
        Kind::StoreFence => enter(event, Entry::StoreFence),
        Kind::FullFence => Operation::FullFence {
            thread: thread_of(event),
        },
        Kind::Drain => Operation::Drain {
            thread: thread_of(event),
        },
        Kind::Load => Operation::Load {
            thread: thread_of(event),
            access: access_of(event),
        },
        Kind::PowerCut => Operation::PowerCut,
    }
}

// The event of a message, or why it is none.
pub(crate) fn hear(message: &[u8]) -> Result<KnownEvent, BufferFault>
    ensures { MatchResult result (λ k. Heard message.now k) (λ f. NotHeard message.now f) }
{
    let event = KnownEvent::read(message)?;
    Ok(event)
}
