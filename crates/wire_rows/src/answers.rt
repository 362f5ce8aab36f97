// What is answered to a row.
ghost use Rattle.std.specs.Prelude.{Some, IfOk};
ghost use Rattle.wire_rows.specs.Answers.{Answers, CountsUp, numbers_told};

use crate::hex::bytes_of;
use crate::rows::Row;
use message::{Event, FaultCode, MessageFault, PackFault, Recording, pack, read};
use std::alloc::{AllocError, Global};
use std::fmt;

// What the memory holds before packing.
const UNWRITTEN: u8 = 0xaa;

#[derive(Drop)]
pub enum Answer {
    Read(Result<Event, MessageFault>),
    Pack {
        packed: Result<(), PackFault>,
        memory: Vec<u8>,
    },
    Parts(Vec<u8>),
}

// A recording of a length, whose bytes count up from 0.
fn counting(heap: Global, length: usize) -> Result<Vec<u8>, AllocError>
    ensures { IfOk result (λ bytes. CountsUp length bytes.items) }
{
    (0..length).map(|i| (i % 256) as u8).collect(heap)
}

impl<'a> Row<'a> {
    pub fn answer(self, heap: Global) -> anyhow::Result<Answer>
        ensures { IfOk result (λ answer. Answers self.entry answer) }
    {
        match self {
            Row::Read(hex) => {
                let message = bytes_of(heap, hex)?;
                Ok(Answer::Read(read(message.as_slice())))
            }
            Row::Pack { event, length } => {
                let mut memory = vec![in heap; UNWRITTEN; length]?;
                let packed = pack(&event, memory.as_mut_slice());
                Ok(Answer::Pack { packed, memory })
            }
            Row::Parts { length } => {
                let recording = counting(heap, length)?;
                Ok(Answer::Parts(recording))
            }
        }
    }
}

// A fault by its three numbers.
#[derive(Clone, Copy, Debug, PartialEq, Eq, Hash)]
pub struct Code(pub FaultCode);

impl fmt::Display for Code {
    ghost output = { λ code. Some (numbers_told code.0) };

    fn fmt<W: fmt::Write>(&self, f: &mut fmt::Formatter<W>) -> fmt::Result {
        let FaultCode {
            number,
            layer,
            place,
        } = self.0;
        let layer = u8::from(layer);
        write!(f, "fault {number} {layer} {place}")
    }
}

// The bytes of a memory, in hexadecimal.
fn tell_memory<W: fmt::Write>(f: &mut fmt::Formatter<W>, memory: &[u8]) -> fmt::Result {
    for b in memory {
        write!(f, "{b:02x}")?;
    }
    Ok(())
}

// The parts of a recording: the ordinal, the first byte and the length of each.
fn tell_parts<W: fmt::Write>(f: &mut fmt::Formatter<W>, recording: &[u8]) -> fmt::Result {
    f.write_str("parts")?;
    for part in Recording::new(recording) {
        let ordinal = part.ordinal;
        let first = part.bytes.first().copied().unwrap_or(0);
        let len = part.bytes.len();
        write!(f, " {ordinal}:{first}:{len}")?;
    }
    Ok(())
}

impl fmt::Display for Answer {
    fn fmt<W: fmt::Write>(&self, f: &mut fmt::Formatter<W>) -> fmt::Result {
        match self {
            Answer::Read(Ok(event)) => {
                let Event {
                    kind,
                    thread,
                    address,
                    width,
                    value,
                } = event;
                write!(f, "event {kind} {thread} {address} {width} {value}")
            }
            Answer::Read(Err(fault)) => {
                let code = Code(FaultCode::from(*fault));
                write!(f, "{code}: {fault}")
            }
            Answer::Pack { packed, memory } => {
                match packed {
                    Ok(()) => f.write_str("packed ")?,
                    Err(fault) => {
                        let code = Code(FaultCode::from(*fault));
                        write!(f, "{code} ")?;
                    }
                }
                tell_memory(f, memory.as_slice())
            }
            Answer::Parts(recording) => tell_parts(f, recording.as_slice()),
        }
    }
}
