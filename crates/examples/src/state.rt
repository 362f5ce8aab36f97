// The state of a case on one line.
use message::{LINES, THREADS};
use processor::{Departure, Entry, Load, Processor, RUNS, Source};
use std::fmt;

// A case, as its state is told. A part that has nothing is told as -.
#[derive(Drop)]
pub(crate) struct State<'a>(pub &'a Processor);

// A waiting entry in short: s for a store, f for a strong flush, w for a weak flush, x for a store fence.
#[derive(Clone, Copy)]
struct Brief(Entry);

impl fmt::Display for Brief {
    fn fmt<W: fmt::Write>(&self, f: &mut fmt::Formatter<W>) -> fmt::Result {
        match self.0 {
            Entry::Store(access) => {
                let address = access.address;
                let width = access.width;
                let value = u64::from_le_bytes(access.value);
                write!(f, "s{address}/{width}={value}")
            }
            Entry::StrongFlush { line } => write!(f, "f{line}"),
            Entry::WeakFlush { line } => write!(f, "w{line}"),
            Entry::StoreFence => f.write_str("x"),
        }
    }
}

fn tell_waiting<W: fmt::Write>(f: &mut fmt::Formatter<W>, entries: &[Entry]) -> fmt::Result {
    if entries.is_empty() {
        f.write_str(" -")?;
    }
    for (i, entry) in entries.iter().enumerate() {
        let before = if i == 0 { " " } else { "," };
        let brief = Brief(*entry);
        write!(f, "{before}{brief}")?;
    }
    Ok(())
}

fn tell_floors<W: fmt::Write>(f: &mut fmt::Formatter<W>, processor: &Processor) -> fmt::Result {
    let mut none = true;
    for run in 0..RUNS {
        for line in 0..LINES {
            let floor = processor.floor(run, line);
            if floor > 0 {
                none = false;
                write!(f, " {run}/{line}={floor}")?;
            }
        }
    }
    if none {
        f.write_str(" -")?;
    }
    Ok(())
}

fn tell_stores<W: fmt::Write>(f: &mut fmt::Formatter<W>, left: &[Departure]) -> fmt::Result {
    let mut none = true;
    for departure in left {
        if let Entry::Store(access) = departure.entry {
            none = false;
            let run = departure.run;
            let moment = departure.moment;
            let address = access.address;
            let width = access.width;
            let value = u64::from_le_bytes(access.value);
            write!(f, " {run}/{moment}@{address}/{width}={value}")?;
        }
    }
    if none {
        f.write_str(" -")?;
    }
    Ok(())
}

// Where a byte of a load comes from: w for a waiting store, c for a cached one, - for neither.
fn tell_source<W: fmt::Write>(f: &mut fmt::Formatter<W>, source: Option<Source>) -> fmt::Result {
    match source {
        Some(Source::Waiting { byte }) => write!(f, "w{byte}"),
        Some(Source::Cached { moment, byte }) => write!(f, "c{moment}:{byte}"),
        None => f.write_str("-"),
    }
}

fn tell_load<W: fmt::Write>(f: &mut fmt::Formatter<W>, load: &Load) -> fmt::Result {
    let run = load.run;
    let thread = load.thread;
    let address = load.access.address;
    let width = load.access.width;
    let value = u64::from_le_bytes(load.access.value);
    write!(f, " {run}/{thread}@{address}/{width}={value}[")?;
    for (i, source) in load.sources.iter().take(width as usize).enumerate() {
        if i > 0 {
            f.write_str(",")?;
        }
        tell_source(f, *source)?;
    }
    f.write_str("]")
}

fn tell_loads<W: fmt::Write>(f: &mut fmt::Formatter<W>, loads: &[Load]) -> fmt::Result {
    if loads.is_empty() {
        f.write_str(" -")?;
    }
    for load in loads {
        tell_load(f, load)?;
    }
    Ok(())
}

impl<'a> fmt::Display for State<'a> {
    fn fmt<W: fmt::Write>(&self, f: &mut fmt::Formatter<W>) -> fmt::Result {
        let processor = self.0;
        let run = processor.run();
        let accepted = processor.accepted();
        write!(f, "run {run} accepted {accepted} counts")?;
        for r in 0..RUNS {
            let count = processor.count(r);
            write!(f, " {count}")?;
        }
        f.write_str(" waiting")?;
        for thread in 0..THREADS {
            tell_waiting(f, processor.waiting(thread))?;
        }
        f.write_str(" floors")?;
        tell_floors(f, processor)?;
        f.write_str(" stores")?;
        tell_stores(f, processor.left())?;
        f.write_str(" loads")?;
        tell_loads(f, processor.loads())
    }
}
