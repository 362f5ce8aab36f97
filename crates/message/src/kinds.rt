// The eight kinds of message.
ghost use Rattle.std.specs.Prelude.{◌≡◌, ◌++◌, Some, codes};
ghost use Rattle.std.specs.Fmt.{decimal};
ghost use Rattle.message.specs.Format.{stands, fields_end};
ghost use Rattle.message.specs.Kinds.{number_of, map_of, NumberGives};
ghost use Rattle.message.specs.Words.{kind_words};

use std::error::Error;
use std::fmt;

// How many kinds there are.
pub const KINDS: usize = 8;

#[derive(Clone, Copy, Debug, PartialEq, Eq, PartialOrd, Ord, Hash)]
pub enum Kind {
    Store = 1,
    StrongFlush = 2,
    WeakFlush = 3,
    StoreFence = 4,
    FullFence = 5,
    Drain = 6,
    Load = 7,
    PowerCut = 8,
}

// A number that no kind has.
#[derive(Clone, Copy, Debug, PartialEq, Eq, Hash)]
pub struct UnknownKind(pub u8);

impl TryFrom<u8> for Kind {
    type Error = UnknownKind;

    ghost try_from_gives = { NumberGives };

    fn try_from(number: u8) -> Result<Kind, UnknownKind> {
        match number {
            1 => Ok(Kind::Store),
            2 => Ok(Kind::StrongFlush),
            3 => Ok(Kind::WeakFlush),
            4 => Ok(Kind::StoreFence),
            5 => Ok(Kind::FullFence),
            6 => Ok(Kind::Drain),
            7 => Ok(Kind::Load),
            8 => Ok(Kind::PowerCut),
            _ => Err(UnknownKind(number)),
        }
    }
}

impl From<Kind> for u8 {
    ghost from_gives = { λ kind number. number ≡ number_of kind };

    fn from(kind: Kind) -> u8 {
        kind as u8
    }
}

impl Kind {
    // The kinds in the order of their numbers.
    pub const ALL: [Kind; KINDS] = [
        Kind::Store,
        Kind::StrongFlush,
        Kind::WeakFlush,
        Kind::StoreFence,
        Kind::FullFence,
        Kind::Drain,
        Kind::Load,
        Kind::PowerCut,
    ];

    // The bit map of its messages.
    pub(crate) fn map(self) -> u8
        ensures { result ≡ map_of self }
    {
        match self {
            Kind::Store | Kind::Load => 0x1f,
            Kind::StrongFlush | Kind::WeakFlush => 0x07,
            Kind::StoreFence | Kind::FullFence | Kind::Drain => 0x03,
            Kind::PowerCut => 0x01,
        }
    }

    pub(crate) fn has_thread(self) -> bool
        ensures { result ≡ stands (map_of self) 1 }
    {
        !matches!(self, Kind::PowerCut)
    }

    pub(crate) fn has_address(self) -> bool
        ensures { result ≡ stands (map_of self) 2 }
    {
        matches!(
            self,
            Kind::Store | Kind::Load | Kind::StrongFlush | Kind::WeakFlush
        )
    }

    // Whether its messages have a width and a value.
    pub(crate) fn has_value(self) -> bool
        ensures width { result ≡ stands (map_of self) 3 }
        ensures value { result ≡ stands (map_of self) 4 }
    {
        matches!(self, Kind::Store | Kind::Load)
    }

    // The offset of the first filler byte of its messages.
    pub(crate) fn fields_end(self) -> usize
        ensures { result ≡ fields_end (map_of self) }
    {
        match self {
            Kind::Store | Kind::Load => 14,
            Kind::StrongFlush | Kind::WeakFlush => 5,
            Kind::StoreFence | Kind::FullFence | Kind::Drain => 3,
            Kind::PowerCut => 2,
        }
    }
}

impl fmt::Display for Kind {
    ghost output = { λ kind. Some (kind_words kind) };

    fn fmt<W: fmt::Write>(&self, f: &mut fmt::Formatter<W>) -> fmt::Result {
        f.write_str(match self {
            Kind::Store => "store",
            Kind::StrongFlush => "strong flush",
            Kind::WeakFlush => "weak flush",
            Kind::StoreFence => "store fence",
            Kind::FullFence => "full fence",
            Kind::Drain => "drain",
            Kind::Load => "load",
            Kind::PowerCut => "power cut",
        })
    }
}

impl fmt::Display for UnknownKind {
    ghost output = { λ unknown. Some (codes "no kind of message has number " ++ decimal unknown.0) };

    fn fmt<W: fmt::Write>(&self, f: &mut fmt::Formatter<W>) -> fmt::Result {
        write!(f, "no kind of message has number {}", self.0)
    }
}

impl Error for UnknownKind {}
