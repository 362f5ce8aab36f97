// Reading until a block is full.
ghost use Rattle.std.specs.Prelude.{length, IfOk};
ghost use Rattle.blocks.specs.Blocks.{Fills};

use std::io;
use std::io::Read;

// Reads on until the block is full or the input ends, and answers how many bytes came.
pub(crate) fn fill<R: Read>(input: &mut R, block: &mut [u8]) -> io::Result<usize>
    ensures { IfOk result (λ n. Fills (R.remaining input.old) (R.remaining input.new) n block.new) }
{
    let mut filled = 0;
    while filled < block.len() {
        let got = input.read(&mut block[filled..])?;
        if got == 0 {
            break;
        }
        filled += got;
    }
    Ok(filled)
}
