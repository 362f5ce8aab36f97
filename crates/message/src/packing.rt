// Packing an event into a message.
ghost use Rattle.std.specs.Prelude.{◌≡◌, ◌^◌, ◌<◌, ◌≤◌, ◌++◌, length, drop, Decides, MatchResult, OnOk};
ghost use Rattle.message.specs.Checks.{bytes_at, Encodes, NotEncoded};
ghost use Rattle.message.specs.Fields.{IsWidth};
ghost use Rattle.message.specs.Kinds.{map_of};
ghost use Rattle.message.specs.Packing.{within, Packing};
ghost use Rattle.message.specs.Trips.{ReadsBack};
ghost use Rattle.message.specs.declared.kinds.Kind.{Kind};
ghost use Rattle.message.specs.declared.faults.PackFault.TheVariants.{Short};

use crate::events::Event;
use crate::faults::PackFault;
use crate::known::KnownEvent;
use crate::reading::MESSAGE_LEN;

// Whether a value takes no more bytes than its width.
fn fits(value: u64, width: u8) -> bool
    requires { IsWidth width }
    ensures { Decides result (value < 256 ^ width) }
{
    match width {
        1 => value < 0x100,
        2 => value < 0x1_0000,
        4 => value < 0x1_0000_0000,
        _ => true,
    }
}

impl KnownEvent {
    // The event with 0 in each field that its kind lacks.
    fn carried(self) -> Event
        ensures { result ≡ within (map_of self.kind) self.event }
    {
        let KnownEvent { kind, event } = self;
        Event {
            kind: event.kind,
            thread: if kind.has_thread() { event.thread } else { 0 },
            address: if kind.has_address() { event.address } else { 0 },
            width: if kind.has_value() { event.width } else { 0 },
            value: if kind.has_value() { event.value } else { 0 },
        }
    }

    // Its message: each field at its offset, and 0 in those that the kind lacks.
    fn bytes(self) -> [u8; 16]
        ensures { result ≡ bytes_at (map_of self.kind) (within (map_of self.kind) self.event) }
    {
        let event = self.carried();
        let a = event.address.to_le_bytes();
        let v = event.value.to_le_bytes();
        [
            self.kind.map(),
            event.kind,
            event.thread,
            a[0],
            a[1],
            event.width,
            v[0],
            v[1],
            v[2],
            v[3],
            v[4],
            v[5],
            v[6],
            v[7],
            0,
            0,
        ]
    }
}

// The message of an event.
fn encode(event: &Event) -> Result<[u8; 16], PackFault>
    ensures { MatchResult result (λ bytes. (k : Kind) × Encodes event.now k bytes) (λ f. NotEncoded event.now f) }
{
    let known = KnownEvent::try_from(*event)?;
    known.check_fields()?;
    if known.kind.has_value() && !fits(event.value, event.width) {
        return Err(PackFault::Value);
    }
    Ok(known.bytes())
}

// Writes a message to the front of `out`, if it has room.
fn write_front(message: &[u8; 16], out: &mut [u8]) -> Result<(), PackFault>
    ensures { MatchResult result (λ _. (16 ≤ length out.old) × (out.new ≡ message.now ++ drop 16 out.old)) (λ f. (f ≡ Short) × (length out.old < 16) × (out.new ≡ out.old)) }
{
    if out.len() < MESSAGE_LEN {
        return Err(PackFault::Short);
    }
    out[0..MESSAGE_LEN].copy_from_slice(message);
    Ok(())
}

// Writes the message of an event to the front of `out`, or refuses and leaves `out` as it was.
pub fn pack(event: &Event, out: &mut [u8]) -> Result<(), PackFault>
    ensures packs { Packing event.now out.old out.new result }
    ensures reads { OnOk result (ReadsBack event.now out.new) }
{
    let message = encode(event)?;
    write_front(&message, out)
}
