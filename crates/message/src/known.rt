// An event of a kind that there is.
ghost use Rattle.std.specs.Prelude.{◌≡◌, Some};
ghost use Rattle.message.specs.Kinds.{kind_of};

use crate::events::Event;
use crate::kinds::Kind;

mod ops;

// An event whose number is that of a kind, with that kind.
#[derive(Clone, Copy, Debug, PartialEq, Eq, Hash)]
pub struct KnownEvent {
    pub kind: Kind,
    pub event: Event,
    ghost known: { kind_of event.kind ≡ Some kind },
}
