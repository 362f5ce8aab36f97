// Answers a table of examples, a line each, of reading, packing and taking a recording apart.
#![tactic(auto)]

use wire_rows::Row;

fn main(rt: HostRuntime) -> anyhow::Result<()> {
    let heap = rt.alloc();
    for line in rt.lines(heap) {
        let line = line?;
        let row = Row::try_from(line.as_str())?;
        let answer = row.answer(heap)?;
        println!(rt; "{answer}")?;
    }
    Ok(())
}
