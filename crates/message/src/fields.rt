// What the fields of an event may hold.
ghost use Rattle.std.specs.Result.{MatchResult};
ghost use Rattle.message.specs.Checks.{FieldsFit, FieldsFail};

use crate::faults::FieldFault;
use crate::known::KnownEvent;
use crate::memory::{MEMORY, THREADS};

impl KnownEvent {
    // Refuses a thread, an address or a width that no message holds, in this order; fields that the kind lacks pass.
    pub(crate) fn check_fields(self) -> Result<(), FieldFault>
        ensures { MatchResult result (λ _. FieldsFit self.kind self.event) (λ f. FieldsFail self.kind self.event f) }
    {
        let KnownEvent { kind, event } = self;
        if kind.has_thread() && event.thread >= THREADS {
            return Err(FieldFault::Thread);
        }
        if kind.has_address() && event.address >= MEMORY {
            return Err(FieldFault::Address);
        }
        if kind.has_value() {
            if !matches!(event.width, 1 | 2 | 4 | 8) {
                return Err(FieldFault::Width);
            }
            if event.address % event.width as u16 != 0 {
                return Err(FieldFault::Unaligned);
            }
        }
        Ok(())
    }
}
