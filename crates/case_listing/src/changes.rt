// What a message changed in the case.
use message::{Kind, KnownEvent, LINES, THREADS};
use processor::{Departure, Load, Processor, SourceName};
use std::{array, io};

// The floors of a run, by line.
type Floors = [u16; LINES as usize];

// The case before a message, as far as it takes to tell what changed.
#[derive(Clone, Copy)]
pub(crate) struct Before {
    run: u8,
    left: usize,
    waiting: usize,
    floors: Floors,
}

fn floors_of(processor: &Processor, run: u8) -> Floors {
    array::from_fn(|line| processor.floor(run, line as u8))
}

// How many entries wait in all.
fn waiting_in_all(processor: &Processor) -> usize {
    (0..THREADS)
        .map(|thread| processor.waiting(thread).len())
        .fold(0, usize::saturating_add)
}

impl Before {
    pub(crate) fn of(processor: &Processor) -> Before {
        let run = processor.run();
        let floors = floors_of(processor, run);
        Before {
            run,
            left: processor.left().len(),
            waiting: waiting_in_all(processor),
            floors,
        }
    }
}

// A case before a message and after it.
#[derive(Clone, Copy)]
pub(crate) struct Change<'a> {
    pub before: &'a Before,
    pub after: &'a Processor,
}

fn tell_departure(rt: &HostRuntime, departure: &Departure) -> io::Result<()> {
    let entry = departure.entry;
    let moment = departure.moment;
    println!(rt; "    {entry} leaves at moment {moment}")
}

fn tell_load(rt: &HostRuntime, number: usize, load: &Load) -> io::Result<()> {
    let run = load.run;
    println!(rt; "    kept as load {number} of run {run}")?;
    let width = load.access.width as usize;
    for (i, source) in load.sources.iter().take(width).enumerate() {
        let address = (load.access.address as usize).saturating_add(i);
        let name = SourceName(*source);
        println!(rt; "    byte {address}: {name}")?;
    }
    Ok(())
}

impl<'a> Change<'a> {
    fn tell_floors(self, rt: &HostRuntime) -> io::Result<()> {
        let floors = floors_of(self.after, self.before.run);
        for (line, (floor, old)) in floors.iter().zip(self.before.floors.iter()).enumerate() {
            if floor != old {
                println!(rt; "    the floor of line {line} is now {floor}")?;
            }
        }
        Ok(())
    }

    // What left, and the floors that it raised.
    fn tell_left(self, rt: &HostRuntime) -> io::Result<()> {
        for departure in self.after.left().iter().skip(self.before.left) {
            tell_departure(rt, departure)?;
        }
        self.tell_floors(rt)
    }

    // What left by a full fence, which is the last to leave.
    fn tell_fence(self, rt: &HostRuntime) -> io::Result<()> {
        if let Some((fence, entries)) = self.after.left().split_last() {
            for departure in entries.iter().skip(self.before.left) {
                tell_departure(rt, departure)?;
            }
            let moment = fence.moment;
            println!(rt; "    the fence takes moment {moment}")?;
        }
        self.tell_floors(rt)
    }

    fn tell_kept(self, rt: &HostRuntime) -> io::Result<()> {
        let Some((load, older)) = self.after.loads().split_last() else {
            return Ok(());
        };
        tell_load(rt, older.len(), load)
    }

    // What the message of an event changed.
    pub(crate) fn tell(self, rt: &HostRuntime, known: &KnownEvent) -> io::Result<()> {
        match known.kind {
            Kind::Store | Kind::StrongFlush | Kind::WeakFlush | Kind::StoreFence => {
                let thread = known.event.thread;
                let place = self.after.waiting(thread).len();
                println!(rt; "    waits as entry {place} of thread {thread}")
            }
            Kind::Drain => self.tell_left(rt),
            Kind::FullFence => self.tell_fence(rt),
            Kind::Load => self.tell_kept(rt),
            Kind::PowerCut => {
                let run = self.before.run;
                let count = self.after.count(run);
                let lost = self.before.waiting;
                println!(rt;
                    "    run {run} is closed with count {count}, and {lost} waiting entries are lost"
                )
            }
        }
    }
}
