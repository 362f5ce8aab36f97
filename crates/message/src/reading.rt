// Reading a message.
ghost use Rattle.std.specs.Prelude.{◌≡◌, ◌≤◌, length, IfOk, MatchOption, MatchResult};
ghost use Rattle.message.specs.Checks.{Head, NoHead, value_at, event_at, Decodes, NotDecoded};
ghost use Rattle.message.specs.Format.{Zeros, FirstNonzero};
ghost use Rattle.message.specs.KnownEvents.{ReadingKnown};
ghost use Rattle.message.specs.Reading.{Reading};
ghost use Rattle.message.specs.Trips.{PacksBack};

use crate::events::Event;
use crate::faults::MessageFault;
use crate::kinds::Kind;
use crate::known::KnownEvent;

pub const MESSAGE_LEN: usize = 16;

// Where the value lies.
const VALUE_START: usize = 6;

const VALUE_END: usize = 14;

// The kind of a message whose map is that of its kind.
fn check_head(message: &[u8; 16]) -> Result<Kind, MessageFault>
    ensures { MatchResult result (λ k. Head message.now k) (λ f. NoHead message.now f) }
{
    let map = message[0];
    if map % 2 == 0 || map >= 32 {
        return Err(MessageFault::Map);
    }
    let kind = Kind::try_from(message[1])?;
    if map != kind.map() {
        return Err(MessageFault::MapOfKind);
    }
    Ok(kind)
}

// The index of the first byte that is not 0.
fn first_nonzero(tail: &[u8]) -> Option<usize>
    ensures { MatchOption result (Zeros tail.now 0 (length tail.now)) (λ i. FirstNonzero tail.now 0 (length tail.now) i) }
{
    for (i, b) in tail.iter().enumerate() {
        if *b != 0 {
            return Some(i);
        }
    }
    None
}

// The offset of the first byte from `from` to below `end` that is not 0.
fn first_nonzero_between(message: &[u8; 16], from: usize, end: usize) -> Option<u8>
    requires ordered { from ≤ end }
    requires within { end ≤ 16 }
    ensures { MatchOption result (Zeros message.now from end) (λ i. FirstNonzero message.now from end i) }
{
    let i = first_nonzero(&message[from..end])?;
    Some((from + i) as u8)
}

fn value_at(message: &[u8; 16]) -> u64
    ensures { result ≡ value_at message.now }
{
    u64::from_le_bytes([
        message[6],
        message[7],
        message[8],
        message[9],
        message[10],
        message[11],
        message[12],
        message[13],
    ])
}

// The fields at their offsets; what a kind lacks is filler.
fn event_at(message: &[u8; 16]) -> Event
    ensures { result ≡ event_at message.now }
{
    Event {
        kind: message[1],
        thread: message[2],
        address: u16::from_le_bytes([message[3], message[4]]),
        width: message[5],
        value: value_at(message),
    }
}

// The event of sixteen bytes.
fn decode(message: &[u8; 16]) -> Result<KnownEvent, MessageFault>
    ensures { MatchResult result (λ k. (k.event ≡ event_at message.now) × Decodes message.now k.kind) (λ f. NotDecoded message.now f) }
{
    let kind = check_head(message)?;
    if let Some(offset) = first_nonzero_between(message, kind.fields_end(), MESSAGE_LEN) {
        return Err(MessageFault::Filler { offset });
    }
    let event = event_at(message);
    let known = KnownEvent { kind, event };
    known.check_fields()?;
    if kind.has_value() {
        let beyond = VALUE_START + event.width as usize;
        if let Some(offset) = first_nonzero_between(message, beyond, VALUE_END) {
            return Err(MessageFault::Value { offset });
        }
    }
    Ok(known)
}

impl KnownEvent {
    // The event that a message carries, with its kind, or the first refusal whose condition holds.
    pub fn read(message: &[u8]) -> Result<KnownEvent, MessageFault>
        ensures reads { ReadingKnown message.now result }
        ensures packs { IfOk result (λ k. PacksBack message.now k.event) }
    {
        let Some(message) = message.as_array::<MESSAGE_LEN>() else {
            return Err(MessageFault::Length);
        };
        decode(message)
    }
}

// The event that a message carries, or the first refusal whose condition holds.
pub fn read(message: &[u8]) -> Result<Event, MessageFault>
    ensures reads { Reading message.now result }
    ensures packs { IfOk result (λ e. PacksBack message.now e) }
{
    let known = KnownEvent::read(message)?;
    Ok(known.event)
}
