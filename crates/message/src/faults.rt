// Why a message or an event is refused.
ghost use Rattle.std.specs.Prelude.{◌≡◌, Some};
ghost use Rattle.message.specs.Faults.{field_number, field_place, message_code, pack_code};
ghost use Rattle.message.specs.Words.{code_words, field_words, message_words, pack_words};
ghost use Rattle.message.specs.declared.faults.MessageFault.TheVariants as message;
ghost use Rattle.message.specs.declared.faults.PackFault.TheVariants as pack;

use crate::kinds::UnknownKind;
use crate::layers::Layer;
use std::error::Error;
use std::fmt;

// A fault as the outside knows it: its number, the layer that found it, and where.
#[derive(Clone, Copy, Debug, PartialEq, Eq, Hash)]
pub struct FaultCode {
    pub number: u8,
    pub layer: Layer,
    pub place: u8,
}

// A field that no message may hold: what reading and packing both refuse.
#[derive(Clone, Copy, Debug, PartialEq, Eq, Hash)]
pub enum FieldFault {
    Thread,
    Address,
    Width,
    Unaligned,
}

// Bytes that are no message. An offset is that of the first byte at fault.
#[derive(Clone, Copy, Debug, PartialEq, Eq, Hash)]
pub enum MessageFault {
    Length,
    Map,
    Kind,
    MapOfKind,
    Filler { offset: u8 },
    Field(FieldFault),
    Value { offset: u8 },
}

// An event that no message carries, or memory too short for one.
#[derive(Clone, Copy, Debug, PartialEq, Eq, Hash)]
pub enum PackFault {
    Kind,
    Field(FieldFault),
    Value,
    Short,
}

impl From<UnknownKind> for MessageFault {
    ghost from_gives = { λ _ m. m ≡ message.Kind };

    fn from(_kind: UnknownKind) -> MessageFault {
        MessageFault::Kind
    }
}

impl From<UnknownKind> for PackFault {
    ghost from_gives = { λ _ p. p ≡ pack.Kind };

    fn from(_kind: UnknownKind) -> PackFault {
        PackFault::Kind
    }
}

impl From<FieldFault> for MessageFault {
    ghost from_gives = { λ f m. m ≡ message.Field f };

    fn from(fault: FieldFault) -> MessageFault {
        MessageFault::Field(fault)
    }
}

impl From<FieldFault> for PackFault {
    ghost from_gives = { λ f p. p ≡ pack.Field f };

    fn from(fault: FieldFault) -> PackFault {
        PackFault::Field(fault)
    }
}

impl FieldFault {
    fn number(self) -> u8
        ensures { result ≡ field_number self }
    {
        match self {
            FieldFault::Thread => 6,
            FieldFault::Address => 7,
            FieldFault::Width => 8,
            FieldFault::Unaligned => 9,
        }
    }

    // The offset in a message of the field at fault.
    fn place(self) -> u8
        ensures { result ≡ field_place self }
    {
        match self {
            FieldFault::Thread => 2,
            FieldFault::Address | FieldFault::Unaligned => 3,
            FieldFault::Width => 5,
        }
    }
}

impl From<MessageFault> for FaultCode {
    ghost from_gives = { λ fault code. code ≡ message_code fault };

    fn from(fault: MessageFault) -> FaultCode {
        let (number, place) = match fault {
            MessageFault::Length => (1, 0),
            MessageFault::Map => (2, 0),
            MessageFault::Kind => (3, 1),
            MessageFault::MapOfKind => (4, 0),
            MessageFault::Filler { offset } => (5, offset),
            MessageFault::Field(fault) => (fault.number(), fault.place()),
            MessageFault::Value { offset } => (10, offset),
        };
        FaultCode {
            number,
            layer: Layer::Message,
            place,
        }
    }
}

impl From<PackFault> for FaultCode {
    ghost from_gives = { λ fault code. code ≡ pack_code fault };

    fn from(fault: PackFault) -> FaultCode {
        let number = match fault {
            PackFault::Kind => 3,
            PackFault::Field(fault) => fault.number(),
            PackFault::Value => 10,
            PackFault::Short => 18,
        };
        FaultCode {
            number,
            layer: Layer::Call,
            place: 0,
        }
    }
}

impl fmt::Display for FaultCode {
    ghost output = { λ code. Some (code_words code) };

    fn fmt<W: fmt::Write>(&self, f: &mut fmt::Formatter<W>) -> fmt::Result {
        let FaultCode {
            number,
            layer,
            place,
        } = self;
        let layer_number = u8::from(*layer);
        let place_name = layer.place_name();
        write!(
            f,
            "fault {number} of layer {layer_number} ({layer}) at {place_name} {place}"
        )
    }
}

impl fmt::Display for FieldFault {
    ghost output = { λ fault. Some (field_words fault) };

    fn fmt<W: fmt::Write>(&self, f: &mut fmt::Formatter<W>) -> fmt::Result {
        f.write_str(match self {
            FieldFault::Thread => "its thread is above 3",
            FieldFault::Address => "its address is above 4095",
            FieldFault::Width => "its width is not 1, 2, 4 or 8",
            FieldFault::Unaligned => "its address is not a multiple of its width",
        })
    }
}

impl fmt::Display for MessageFault {
    ghost output = { λ fault. Some (message_words fault) };

    fn fmt<W: fmt::Write>(&self, f: &mut fmt::Formatter<W>) -> fmt::Result {
        match self {
            MessageFault::Length => f.write_str("it is not 16 bytes long"),
            MessageFault::Map => f.write_str(
                "bit 0 of its map is clear, or a bit of 5 to 7 is set",
            ),
            MessageFault::Kind => f.write_str("its kind is unknown"),
            MessageFault::MapOfKind => f.write_str("its map is not that of its kind"),
            MessageFault::Filler { offset: _ } => f.write_str("a filler byte is not 0"),
            MessageFault::Field(fault) => write!(f, "{fault}"),
            MessageFault::Value { offset: _ } => f.write_str(
                "a value byte beyond the width is not 0",
            ),
        }
    }
}

impl fmt::Display for PackFault {
    ghost output = { λ fault. Some (pack_words fault) };

    fn fmt<W: fmt::Write>(&self, f: &mut fmt::Formatter<W>) -> fmt::Result {
        match self {
            PackFault::Kind => f.write_str("its kind is unknown"),
            PackFault::Field(fault) => write!(f, "{fault}"),
            PackFault::Value => f.write_str("its value takes more bytes than its width"),
            PackFault::Short => f.write_str("the memory has fewer than 16 bytes"),
        }
    }
}

impl Error for FieldFault {}

impl Error for MessageFault {}

impl Error for PackFault {}
