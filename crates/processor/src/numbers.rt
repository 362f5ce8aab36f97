// The numbers of the four threads and of the 64 cache lines.
ghost use Rattle.std.specs.Prelude.{◌≡◌, ◌<◌};

use std::error::Error;
use std::fmt;
use std::marker::Model;

pub(crate) const THREADS: usize = message::THREADS as usize;

// A number below `N`.
#[derive(Clone, Copy, Debug, PartialEq, Eq, PartialOrd, Ord, Hash)]
pub struct Below<const N: u8> {
    number: u8,
}

// The number of a thread, 0 to 3.
pub type Thread = Below<{ message::THREADS }>;

// The number of a cache line, 0 to 63.
pub type CacheLine = Below<{ message::LINES }>;

// Clauses see the number.
impl<const N: u8> Model for Below<N> {
    ghost use Rattle.std.specs.Prelude.{ℕ, ◌<◌};

    ghost Value = { ℕ };

    ghost view = { λ b. b.number };

    ghost invariant = { λ b. b.number < N };

    ghost inverse = { λ n. record { number = n } };
}

// A number that is not below `N`.
#[derive(Clone, Copy, Debug, PartialEq, Eq, Hash)]
pub struct NotBelow<const N: u8>(pub u8);

impl Thread {
    // All of them, in order.
    pub(crate) const ALL: [Thread; THREADS] = [
        Below { number: 0 },
        Below { number: 1 },
        Below { number: 2 },
        Below { number: 3 },
    ];
}

impl<const N: u8> Below<N> {
    pub(crate) fn new(number: u8) -> Below<N>
        requires { number < N }
        ensures { result ≡ number }
    {
        Below { number }
    }

    // Its place in a table of `N` rows.
    pub fn index(self) -> usize
        ensures value { result ≡ self.entry }
        ensures within { result < N }
    {
        usize::from(self.number)
    }
}

impl<const N: u8> TryFrom<u8> for Below<N> {
    type Error = NotBelow<N>;

    ghost use Rattle.processor.specs.Numbers.{Numbers};

    ghost try_from_gives = { Numbers N };

    fn try_from(number: u8) -> Result<Below<N>, NotBelow<N>> {
        if number < N {
            Ok(Below { number })
        } else {
            Err(NotBelow(number))
        }
    }
}

impl<const N: u8> From<Below<N>> for u8 {
    ghost from_gives = { λ b n. (n ≡ b) × (n < N) };

    fn from(below: Below<N>) -> u8 {
        below.number
    }
}

// In words it is its digits.
impl<const N: u8> fmt::Display for Below<N> {
    ghost use Rattle.std.specs.Prelude.{Some};
    ghost use Rattle.std.specs.Fmt.{decimal};

    ghost output = { λ b. Some (decimal b) };

    fn fmt<W: fmt::Write>(&self, f: &mut fmt::Formatter<W>) -> fmt::Result {
        write!(f, "{}", self.number)
    }
}

impl<const N: u8> fmt::Display for NotBelow<N> {
    ghost use Rattle.std.specs.Prelude.{◌++◌, Some, codes};
    ghost use Rattle.std.specs.Fmt.{decimal};

    ghost output = { λ e. Some (codes "number " ++ (decimal e.0 ++ (codes " is not below " ++ decimal N))) };

    fn fmt<W: fmt::Write>(&self, f: &mut fmt::Formatter<W>) -> fmt::Result {
        let number = self.0;
        let limit = N;
        write!(f, "number {number} is not below {limit}")
    }
}

impl<const N: u8> Error for NotBelow<N> {}
