// What one message says.
// An event as a message carries it, and as the packer is handed it. The kind is a number, so that an event of an unknown
// kind can be handed in and refused. A field that the kind lacks is no part of the event: reading gives 0 for it, and
// packing does not look at it.
#[derive(Clone, Copy, Debug, PartialEq, Eq, Hash)]
pub struct Event {
    pub kind: u8,
    pub thread: u8,
    pub address: u16,
    pub width: u8,
    pub value: u64,
}
