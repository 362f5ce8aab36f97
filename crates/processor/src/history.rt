// What has left the buffers in all runs.
use crate::departures::Departure;
use std::marker::Model;
use tables::Table;

mod ops;

// How many moments a case takes over all its runs.
pub(crate) const MOMENTS: usize = 512;

// How many runs a case has at most, and how many cuts it takes.
pub const RUNS: u8 = 5;

pub(crate) const CUTS: u8 = RUNS - 1;

// The present run, its count, and all that left, oldest first.
#[derive(Drop)]
pub(crate) struct History {
    run: u8,
    present_count: u16,
    left: Table<Departure, MOMENTS>,
}

// Clauses see the run and what left; the count follows from them.
impl Model for History {
    ghost use Rattle.processor.specs.History.{Past, past, Counts};

    ghost Value = { Past };

    ghost view = { λ h. past h.run h.left };

    ghost invariant = { λ h. Counts (past h.run h.left) h.present_count };
}
