// Blocks as they come in.
ghost use Rattle.std.specs.Prelude.{◌≡◌};
ghost use Rattle.std.specs.Iterator.{at_most};
ghost use Rattle.blocks.specs.Blocks.{input_of, left_of, Gives};

use crate::fill::fill;
use arrayvec::ArrayVec;
use std::io;
use std::io::Read;

// How many bytes a block has.
pub const BLOCK: usize = 1024;

// An iterator over the blocks that an input gives. One that is shorter is the last, and the input is not asked again. It ends
// after 2^64 - 1 blocks at the latest, which no input has.
#[derive(Drop)]
pub struct Blocks<R> {
    input: R,
    left: u64,
}

impl<R: Read> Blocks<R> {
    pub fn new(input: R) -> Blocks<R>
        ensures input { input_of result ≡ input }
        ensures left { left_of result ≡ 18446744073709551615 }
    {
        Blocks {
            input,
            left: u64::MAX,
        }
    }
}

impl<R: Read + Drop> Iterator for Blocks<R> {
    type Item = io::Result<ArrayVec<u8, BLOCK>>;

    ghost can_next = { λ _. Unit {0} };

    ghost next_gives = { λ s r t. Gives (left_of s) (R.remaining (input_of s)) r (left_of t) (R.remaining (input_of t)) };

    ghost remaining = { λ s. at_most (left_of s) };

    fn next(&mut self) -> Option<io::Result<ArrayVec<u8, BLOCK>>> {
        self.left = self.left.checked_sub(1)?;
        let mut bytes = [0; BLOCK];
        match fill(&mut self.input, &mut bytes) {
            Ok(0) => None,
            Ok(len) => {
                if len < BLOCK {
                    self.left = 0;
                }
                let mut block = ArrayVec::from_array_in((), bytes);
                block.truncate(len);
                Some(Ok(block))
            }
            Err(e) => Some(Err(e)),
        }
    }
}
