// Reads a recording from standard input and prints each message in words, up to the end or the first fault.
#![tactic(auto)]

use blocks::Blocks;
use message::Recording;
use std::io;
use wording::{Tally, list};

fn main(rt: HostRuntime) -> io::Result<()> {
    let mut tally = Tally::new();
    'input: for block in Blocks::new(rt.stdin()) {
        let block = block?;
        for part in Recording::new(block.as_slice()) {
            let line = list(part.bytes, &mut tally);
            println!(rt; "{line}")?;
            if line.said.is_err() {
                break 'input;
            }
        }
    }
    let messages = tally.messages;
    println!(rt; "messages read: {messages}")?;
    print!(rt; "{tally}")
}
