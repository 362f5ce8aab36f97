// Bytes of the memory that one store writes or one load reads.
ghost use Rattle.std.specs.Prelude.{◌≡◌, ◌+◌};
ghost use Rattle.processor.specs.Memory.{line, byte_at, overlap};

use std::marker::Model;

// The `width` bytes from `address` on, and their values; value bytes beyond the width are 0. All of them lie in one cache
// line.
#[derive(Clone, Copy, Debug, PartialEq, Eq, Hash)]
pub struct Access {
    pub address: u16,
    pub width: u8,
    pub value: [u8; 8],
}

// Clauses see its bytes as a span of the memory.
impl Model for Access {
    ghost use Rattle.processor.specs.Memory.{Span, span, InLine};

    ghost Value = { Span };

    ghost view = { λ a. span a.address a.width a.value };

    ghost invariant = { λ a. InLine (span a.address a.width a.value) };

    ghost inverse = { λ s. record { address = s.address; width = s.width; value = s.value } };
}

impl Access {
    pub(crate) fn line(&self) -> u8
        ensures { result ≡ line self.now.address }
    {
        message::line_of(self.address) as u8
    }

    // The address behind its last byte.
    pub(crate) fn end(&self) -> u16
        ensures { result ≡ self.now.address + self.now.width }
    {
        self.address + self.width as u16
    }

    // Whether it has a byte in common with another, if both have some.
    pub(crate) fn overlaps(&self, other: &Access) -> bool
        ensures { result ≡ overlap self.now other.now }
    {
        // It has to begin before the other's end and, since none is wider than 8, at most 7 bytes before its address. One
        // comparison tells both, as below that the difference wraps beyond any width; most lie too far away, and end here.
        let lowest = other.address.wrapping_sub(7);
        self.address.wrapping_sub(lowest) < other.width as u16 + 7 && other.address < self.end()
    }

    // The byte that it has for an address, if it covers that.
    pub(crate) fn byte_at(&self, at: u16) -> Option<u8>
        ensures { result ≡ byte_at self.now at }
    {
        // from an address below, the difference wraps beyond any width
        let place = at.wrapping_sub(self.address);
        if place < self.width as u16 {
            Some(self.value[place as usize])
        } else {
            None
        }
    }
}
