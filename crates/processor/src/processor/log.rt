// Messages and recordings into the processor.
ghost use Rattle.processor.specs.Logging.{Logs, Follows};
ghost use Rattle.processor.specs.Operations.{InRange, CarriesOut};
ghost use Rattle.processor.specs.Playing.{Plays};

use super::Processor;
use crate::faults::CaseFault;
use crate::operations::{Operation, hear, operation_of};
use message::{Follower, KnownEvent, MESSAGE_LEN, Recording};

// How a recording was played: how many of its messages were accepted, and the fault of the one after them, unless the
// recording ended there.
#[derive(Clone, Copy, Debug, PartialEq, Eq, Hash)]
pub struct Playback {
    pub accepted: usize,
    pub fault: Option<CaseFault>,
}

impl Processor {
    // What a message asks is done and the message counted, or it is refused with nothing changed.
    fn carry_out(&mut self, operation: Operation) -> Result<(), CaseFault>
        requires { InRange operation }
        ensures { CarriesOut operation self.old result self.new }
    {
        let accepted = self.accepted + 1;
        self.perform(operation)?;
        self.accepted = accepted;
        Ok(())
    }

    // One message: followed and counted, or refused with nothing changed.
    pub fn log(&mut self, message: &[u8]) -> Result<(), CaseFault>
        ensures { Logs self.old message.now result self.new }
    {
        self.follow(message)?;
        Ok(())
    }

    // Logs message after message, up to the end of the recording or the first fault.
    pub fn play(&mut self, recording: &[u8]) -> Playback
        ensures { Plays self.old recording.now result self.new }
    {
        for part in Recording::new(recording) {
            if let Err(fault) = self.log(part.bytes) {
                return Playback {
                    accepted: part.ordinal,
                    fault: Some(fault),
                };
            }
        }
        Playback {
            accepted: recording.len().div_ceil(MESSAGE_LEN),
            fault: None,
        }
    }
}

impl Follower for Processor {
    type Fault = CaseFault;

    ghost follows = { Follows };

    fn follow(&mut self, message: &[u8]) -> Result<KnownEvent, CaseFault> {
        let event = hear(message)?;
        self.carry_out(operation_of(&event))?;
        Ok(event)
    }
}
