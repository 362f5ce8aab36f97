// Rows of a table.
ghost use Rattle.wire_rows.specs.Rows.{Named};

use anyhow::anyhow;
use message::Event;
use std::num::ParseIntError;
use std::str::{FromStr, SplitWhitespace};

// What a row asks: to read the bytes that stand in hexadecimal, to pack an event into a memory of a length, or to take a
// recording of a length apart.
#[derive(Clone, Copy)]
pub enum Row<'a> {
    Read(&'a str),
    Pack { event: Event, length: usize },
    Parts { length: usize },
}

// The number that the next word is.
fn number_in<'a, T: FromStr<Err = ParseIntError>>(
    words: &mut SplitWhitespace<'a>,
) -> anyhow::Result<T> {
    let word = words.next().unwrap_or("");
    Ok(word.parse::<T>()?)
}

// A row's first word names what it asks, and the others are what it is asked of.
impl<'a> TryFrom<&'a str> for Row<'a> {
    type Error = anyhow::Error;

    ghost try_from_gives = { Named };

    fn try_from(line: &'a str) -> anyhow::Result<Row<'a>> {
        let mut words = line.split_whitespace();
        match words.next() {
            Some("read") => Ok(Row::Read(words.next().unwrap_or(""))),
            Some("pack") => Ok(Row::Pack {
                event: Event {
                    kind: number_in(&mut words)?,
                    thread: number_in(&mut words)?,
                    address: number_in(&mut words)?,
                    width: number_in(&mut words)?,
                    value: number_in(&mut words)?,
                },
                length: number_in(&mut words)?,
            }),
            Some("parts") => Ok(Row::Parts {
                length: number_in(&mut words)?,
            }),
            _ => Err(anyhow!("no such row")),
        }
    }
}
