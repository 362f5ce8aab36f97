// Waiting entries and sources of bytes in words.
ghost use Rattle.std.specs.Prelude.{◌≡◌, Some};
ghost use Rattle.processor.specs.Words.{entry_name, source_words, found_words};

use crate::entries::Entry;
use crate::sources::Source;
use message::line_of;
use std::fmt;

// An entry by its plain numbers, which may be more than any entry has.
#[derive(Clone, Copy, Debug, PartialEq, Eq, Hash)]
pub enum EntryName {
    Store {
        address: u16,
        width: u8,
        value: [u8; 8],
    },
    StrongFlush {
        line: u8,
    },
    WeakFlush {
        line: u8,
    },
    StoreFence,
}

impl EntryName {
    // The numbers of an entry.
    fn of(entry: Entry) -> EntryName
        ensures { result ≡ entry_name entry }
    {
        match entry {
            Entry::Store(access) => {
                let value = access.value;
                EntryName::Store {
                    address: access.address,
                    width: access.width,
                    value,
                }
            }
            Entry::StrongFlush { line } => EntryName::StrongFlush {
                line: u8::from(line),
            },
            Entry::WeakFlush { line } => EntryName::WeakFlush {
                line: u8::from(line),
            },
            Entry::StoreFence => EntryName::StoreFence,
        }
    }
}

impl fmt::Display for EntryName {
    fn fmt<W: fmt::Write>(&self, f: &mut fmt::Formatter<W>) -> fmt::Result {
        match *self {
            EntryName::Store {
                address,
                width,
                value,
            } => {
                let value = u64::from_le_bytes(value);
                let line = line_of(address);
                write!(
                    f,
                    "the store of {value} ({value:#x}), width {width}, at address {address} (line {line})"
                )
            }
            EntryName::StrongFlush { line } => write!(f, "the strong flush of line {line}"),
            EntryName::WeakFlush { line } => write!(f, "the weak flush of line {line}"),
            EntryName::StoreFence => f.write_str("the store fence"),
        }
    }
}

impl fmt::Display for Entry {
    fn fmt<W: fmt::Write>(&self, f: &mut fmt::Formatter<W>) -> fmt::Result {
        let name = EntryName::of(*self);
        write!(f, "{name}")
    }
}

impl fmt::Display for Source {
    ghost output = { λ source. Some (source_words source) };

    fn fmt<W: fmt::Write>(&self, f: &mut fmt::Formatter<W>) -> fmt::Result {
        match self {
            Source::Waiting { byte } => write!(f, "{byte} from a waiting store"),
            Source::Cached { moment, byte } => write!(
                f,
                "{byte} from the store at moment {moment}"
            ),
        }
    }
}

// Which store of its run gives a byte, if any does.
#[derive(Clone, Copy, Debug, PartialEq, Eq, Hash)]
pub struct SourceName(pub Option<Source>);

impl fmt::Display for SourceName {
    ghost output = { λ name. Some (found_words name.0) };

    fn fmt<W: fmt::Write>(&self, f: &mut fmt::Formatter<W>) -> fmt::Result {
        match self.0 {
            Some(source) => write!(f, "{source}"),
            None => f.write_str("no store of this run"),
        }
    }
}
