// Bytes in hexadecimal.
ghost use Rattle.std.specs.Prelude.{◌≡◌, ◌<◌, None, IfOk};
ghost use Rattle.wire_rows.specs.Hex.{digit_of, pairs};

use anyhow::anyhow;
use std::alloc::Global;

fn digit(b: u8) -> anyhow::Result<u8>
    ensures value { IfOk result (λ d. d ≡ digit_of b) }
    ensures within { IfOk result (λ d. d < 16) }
{
    match b {
        b'0'..=b'9' => Ok(b - b'0'),
        b'a'..=b'f' => Ok(b - b'a' + 10),
        _ => Err(anyhow!("no hexadecimal digit")),
    }
}

// A byte for each two digits; an odd one at the end counts for nothing.
pub fn bytes_of(heap: Global, hex: &str) -> anyhow::Result<Vec<u8>>
    ensures { IfOk result (λ bytes. bytes.items ≡ pairs None hex.now) }
{
    let mut bytes = Vec::new(heap);
    let mut high = None;
    for b in hex.bytes() {
        let low = digit(b)?;
        match high {
            None => high = Some(low),
            Some(h) => {
                bytes.push(h * 16 + low)?;
                high = None;
            }
        }
    }
    Ok(bytes)
}
