// Reads a recording from standard input and follows the processor through it: each message in words with what it changed,
// up to the end or the first fault, and then what the runs hold.
#![tactic(auto)]

mod changes;
mod runs;

use blocks::Blocks;
use case_wording::list;
use changes::{Before, Change};
use message::Recording;
use processor::Processor;
use runs::tell_runs;
use std::io;
use wording::Tally;

fn main(rt: HostRuntime) -> io::Result<()> {
    let mut processor = Processor::open();
    let mut tally = Tally::new();
    'input: for block in Blocks::new(rt.stdin()) {
        let block = block?;
        for part in Recording::new(block.as_slice()) {
            let before = Before::of(&processor);
            let line = list(part.bytes, &mut processor, &mut tally);
            println!(rt; "{line}")?;
            match line.said {
                Ok(event) => {
                    let change = Change {
                        before: &before,
                        after: &processor,
                    };
                    change.tell(&rt, &event)?;
                }
                Err(_) => break 'input,
            }
        }
    }
    let messages = tally.messages;
    println!(rt; "messages accepted: {messages}")?;
    print!(rt; "{tally}")?;
    tell_runs(&rt, &processor)
}
