// Why a message is not followed: each fault holds that of the layer below whole.
ghost use Rattle.std.specs.Prelude.{◌≡◌, Some};
ghost use Rattle.processor.specs.Faults.{buffer_code, case_code};
ghost use Rattle.processor.specs.Words.{buffer_words, case_words};
ghost use Rattle.processor.specs.declared.faults.BufferFault.TheVariants as buffer;
ghost use Rattle.processor.specs.declared.faults.CaseFault.TheVariants as case;

use message::{FaultCode, Layer, MessageFault};
use std::error::Error;
use std::fmt;

// What the store buffers refuse: a message that is none, an entry where eight wait, a drain where none waits.
#[derive(Clone, Copy, Debug, PartialEq, Eq, Hash)]
pub enum BufferFault {
    Message(MessageFault),
    Full { thread: u8 },
    Empty { thread: u8 },
}

// What a case refuses: what its buffers refuse, and what has no room in the case. The run is the present one.
#[derive(Clone, Copy, Debug, PartialEq, Eq, Hash)]
pub enum CaseFault {
    Buffer(BufferFault),
    Moments { run: u8 },
    Loads { run: u8 },
    Cuts { run: u8 },
}

impl From<MessageFault> for BufferFault {
    ghost from_gives = { λ m b. b ≡ buffer.Message m };

    fn from(fault: MessageFault) -> BufferFault {
        BufferFault::Message(fault)
    }
}

impl From<BufferFault> for CaseFault {
    ghost from_gives = { λ b c. c ≡ case.Buffer b };

    fn from(fault: BufferFault) -> CaseFault {
        CaseFault::Buffer(fault)
    }
}

impl From<BufferFault> for FaultCode {
    ghost from_gives = { λ fault code. code ≡ buffer_code fault };

    fn from(fault: BufferFault) -> FaultCode {
        let layer = Layer::Buffers;
        match fault {
            BufferFault::Message(fault) => FaultCode::from(fault),
            BufferFault::Full { thread } => FaultCode {
                number: 11,
                layer,
                place: thread,
            },
            BufferFault::Empty { thread } => FaultCode {
                number: 12,
                layer,
                place: thread,
            },
        }
    }
}

impl From<CaseFault> for FaultCode {
    ghost from_gives = { λ fault code. code ≡ case_code fault };

    fn from(fault: CaseFault) -> FaultCode {
        let (number, place) = match fault {
            CaseFault::Buffer(fault) => return FaultCode::from(fault),
            CaseFault::Moments { run } => (13, run),
            CaseFault::Loads { run } => (14, run),
            CaseFault::Cuts { run } => (15, run),
        };
        FaultCode {
            number,
            layer: Layer::Case,
            place,
        }
    }
}

impl fmt::Display for BufferFault {
    ghost output = { λ fault. Some (buffer_words fault) };

    fn fmt<W: fmt::Write>(&self, f: &mut fmt::Formatter<W>) -> fmt::Result {
        match self {
            BufferFault::Message(fault) => write!(f, "{fault}"),
            BufferFault::Full { thread: _ } => f.write_str("8 entries wait in its thread's buffer"),
            BufferFault::Empty { thread: _ } => f.write_str(
                "no entry waits in its thread's buffer",
            ),
        }
    }
}

impl fmt::Display for CaseFault {
    ghost output = { λ fault. Some (case_words fault) };

    fn fmt<W: fmt::Write>(&self, f: &mut fmt::Formatter<W>) -> fmt::Result {
        match self {
            CaseFault::Buffer(fault) => write!(f, "{fault}"),
            CaseFault::Moments { run: _ } => f.write_str("the moments do not suffice"),
            CaseFault::Loads { run: _ } => f.write_str("256 loads are kept"),
            CaseFault::Cuts { run: _ } => f.write_str("four cuts were made"),
        }
    }
}

impl Error for BufferFault {}

impl Error for CaseFault {}
