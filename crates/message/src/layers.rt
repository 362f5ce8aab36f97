// Which layer finds a fault.
ghost use Rattle.std.specs.Prelude.{◌≡◌, Some};
ghost use Rattle.message.specs.Faults.{layer_number};
ghost use Rattle.message.specs.Words.{layer_words, place_name};

use std::fmt;

// A layer of the product, by its number: the message, the store buffers, the case, and a call that is at fault itself, which
// packs an event or asks a question.
#[derive(Clone, Copy, Debug, PartialEq, Eq, Hash)]
pub enum Layer {
    Message = 1,
    Buffers = 2,
    Case = 3,
    Call = 4,
}

impl From<Layer> for u8 {
    ghost from_gives = { λ layer number. number ≡ layer_number layer };

    fn from(layer: Layer) -> u8 {
        layer as u8
    }
}

impl Layer {
    // What the place of its faults is a number of.
    pub(crate) fn place_name(self) -> &'static str
        ensures { result.now ≡ place_name self }
    {
        match self {
            Layer::Message => "byte",
            Layer::Buffers => "thread",
            Layer::Case => "run",
            Layer::Call => "place",
        }
    }
}

impl fmt::Display for Layer {
    ghost output = { λ layer. Some (layer_words layer) };

    fn fmt<W: fmt::Write>(&self, f: &mut fmt::Formatter<W>) -> fmt::Result {
        f.write_str(match self {
            Layer::Message => "message",
            Layer::Buffers => "buffers",
            Layer::Case => "case",
            Layer::Call => "call",
        })
    }
}
