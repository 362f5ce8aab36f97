// From any event to one of a known kind, and its words.
ghost use Rattle.message.specs.KnownEvents.{KnownGives};

use super::KnownEvent;
use crate::events::Event;
use crate::kinds::{Kind, UnknownKind};
use crate::told::Told;
use std::fmt;

impl TryFrom<Event> for KnownEvent {
    type Error = UnknownKind;

    ghost try_from_gives = { KnownGives };

    fn try_from(event: Event) -> Result<KnownEvent, UnknownKind> {
        let kind = Kind::try_from(event.kind)?;
        Ok(KnownEvent { kind, event })
    }
}

impl fmt::Display for KnownEvent {
    fn fmt<W: fmt::Write>(&self, f: &mut fmt::Formatter<W>) -> fmt::Result {
        let told = Told {
            kind: self.kind,
            event: self.event,
        };
        write!(f, "{told}")
    }
}
