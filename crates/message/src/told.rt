// Events in words.
use crate::events::Event;
use crate::kinds::Kind;
use crate::memory::line_of;
use std::fmt;

// What an event does as one of a kind, which need not be that of its number.
#[derive(Clone, Copy, Debug, PartialEq, Eq, Hash)]
pub struct Told {
    pub kind: Kind,
    pub event: Event,
}

impl fmt::Display for Told {
    fn fmt<W: fmt::Write>(&self, f: &mut fmt::Formatter<W>) -> fmt::Result {
        let line = line_of(self.event.address);
        let Event {
            kind: _,
            thread,
            address,
            width,
            value,
        } = self.event;
        match self.kind {
            Kind::Store | Kind::Load => {
                let does = if self.kind == Kind::Load {
                    "loads"
                } else {
                    "stores"
                };
                write!(
                    f,
                    "thread {thread} {does} {value} ({value:#x}), width {width}, at address {address} (line {line})"
                )
            }
            Kind::StrongFlush | Kind::WeakFlush => {
                let how = if self.kind == Kind::WeakFlush {
                    "weakly"
                } else {
                    "strongly"
                };
                write!(
                    f,
                    "thread {thread} flushes address {address} (line {line}) {how}"
                )
            }
            Kind::StoreFence => write!(f, "thread {thread} fences its stores"),
            Kind::FullFence => write!(f, "thread {thread} fences in full"),
            Kind::Drain => write!(f, "the oldest waiting entry of thread {thread} leaves"),
            Kind::PowerCut => f.write_str("the power is cut"),
        }
    }
}
