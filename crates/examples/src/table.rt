// The rows of the table of examples.
use std::alloc::Global;
use wire_rows::bytes_of;

#[derive(Drop)]
pub enum Row<'a> {
    Wire(wire_rows::Row<'a>),
    Open,
    Log(Vec<u8>),
    Play(Vec<u8>),
    State,
}

// The row that a line holds.
pub(crate) fn row_of<'a>(heap: Global, line: &'a str) -> anyhow::Result<Row<'a>> {
    let mut words = line.split_whitespace();
    match words.next() {
        Some("open") => Ok(Row::Open),
        Some("log") => Ok(Row::Log(bytes_of(heap, words.next().unwrap_or(""))?)),
        Some("play") => Ok(Row::Play(bytes_of(heap, words.next().unwrap_or(""))?)),
        Some("state") => Ok(Row::State),
        _ => Ok(Row::Wire(wire_rows::Row::try_from(line)?)),
    }
}
