// Answers a table of examples, a line each, of reading, packing, taking a recording apart and following a case. The rows of
// the first three kinds are those of crate wire_rows; the others are
//
//     open        opens a case
//     log HEX     logs a message in the case: ok, or the fault
//     play HEX    plays a recording in the case: how many were accepted, and the fault
//     state       the state of the case
#![tactic(auto)]

mod state;
mod table;

use processor::Processor;
use state::State;
use table::{Row, row_of};
use wire_rows::Code;

fn answer_log(rt: &HostRuntime, processor: &mut Processor, message: &[u8]) -> anyhow::Result<()> {
    match processor.log(message) {
        Ok(()) => println!(rt; "ok")?,
        Err(fault) => {
            let code = Code(fault.into());
            println!(rt; "{code}")?;
        }
    }
    Ok(())
}

fn answer_play(
    rt: &HostRuntime,
    processor: &mut Processor,
    recording: &[u8],
) -> anyhow::Result<()> {
    let played = processor.play(recording);
    let accepted = played.accepted;
    match played.fault {
        None => println!(rt; "accepted {accepted}")?,
        Some(fault) => {
            let code = Code(fault.into());
            println!(rt; "accepted {accepted}, {code}")?;
        }
    }
    Ok(())
}

fn main(rt: HostRuntime) -> anyhow::Result<()> {
    let heap = rt.alloc();
    let mut processor = Processor::open();
    for line in rt.lines(heap) {
        let line = line?;
        match row_of(heap, line.as_str())? {
            Row::Wire(row) => {
                let answer = row.answer(heap)?;
                println!(rt; "{answer}")?;
            }
            Row::Open => {
                processor = Processor::open();
                println!(rt; "opened")?;
            }
            Row::Log(message) => answer_log(&rt, &mut processor, message.as_slice())?,
            Row::Play(recording) => answer_play(&rt, &mut processor, recording.as_slice())?,
            Row::State => {
                let state = State(&processor);
                println!(rt; "{state}")?;
            }
        }
    }
    Ok(())
}
