// The arm's threads and its memory.
ghost use Rattle.std.specs.Prelude.{◌≡◌, ◌/◌};

// Threads are numbered from 0.
pub const THREADS: u8 = 4;

// The bytes of the memory, which lie in 64 lines of 64 bytes.
pub const MEMORY: u16 = 4096;

pub const LINES: u8 = 64;

// The cache line of an address.
pub fn line_of(address: u16) -> u16
    ensures { result ≡ address / 64 }
{
    address / 64
}
