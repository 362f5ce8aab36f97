// The table of the runs at the end of a listing.
use message::LINES;
use processor::{Entry, Processor};
use std::io;

fn tell_stores(rt: &HostRuntime, processor: &Processor, run: u8) -> io::Result<()> {
    let left = processor.left().iter();
    for departure in left.filter(|departure| departure.run == run) {
        if let Entry::Store(_) = departure.entry {
            let moment = departure.moment;
            let store = departure.entry;
            println!(rt; "  moment {moment}: {store}")?;
        }
    }
    Ok(())
}

fn tell_floors(rt: &HostRuntime, processor: &Processor, run: u8) -> io::Result<()> {
    for line in 0..LINES {
        let floor = processor.floor(run, line);
        if floor > 0 {
            println!(rt; "  the floor of line {line} is {floor}")?;
        }
    }
    Ok(())
}

pub(crate) fn tell_runs(rt: &HostRuntime, processor: &Processor) -> io::Result<()> {
    let present = processor.run();
    for run in 0..=present {
        let count = processor.count(run);
        let note = if run == present { " (present)" } else { "" };
        println!(rt; "run {run}{note}: count {count}")?;
        tell_stores(rt, processor, run)?;
        tell_floors(rt, processor, run)?;
    }
    let kept = processor.loads().len();
    println!(rt; "loads kept: {kept}")
}
