use crate::{Row, bytes_of};

// The answer to a row, in words.
fn told<'a>(rt: &HostRuntime, row: &'a str) -> anyhow::Result<String> {
    let answer = Row::try_from(row)?.answer(rt.alloc())?;
    Ok(format!(in rt.alloc(); "{answer}")?)
}

#[test]
fn digits_make_bytes(rt: HostRuntime) -> anyhow::Result<()> {
    let bytes = bytes_of(rt.alloc(), "1f00ff")?;
    assert_eq!(rt; bytes.as_slice(), [0x1f, 0x00, 0xff].as_slice());
    Ok(())
}

#[test]
fn rows_are_answered(rt: HostRuntime) -> anyhow::Result<()> {
    let read = told(&rt, "read 06020000000000000000000000000000")?;
    assert_eq!(rt;
        read.as_str(),
        "fault 2 1 0: bit 0 of its map is clear, or a bit of 5 to 7 is set"
    );
    let pack = told(&rt, "pack 8 0 0 0 0 17")?;
    assert_eq!(rt; pack.as_str(), "packed 01080000000000000000000000000000aa");
    let parts = told(&rt, "parts 17")?;
    assert_eq!(rt; parts.as_str(), "parts 0:0:16 1:16:1");
    Ok(())
}
