// The processor: all that a case follows.
use crate::buffers::Buffers;
use crate::history::History;
use crate::loads::Load;
use std::marker::Model;
use tables::Table;

mod log;
mod steps;
mod views;

pub use log::Playback;

// How many loads a case keeps.
const LOADS: usize = 256;

#[derive(Drop)]
pub struct Processor {
    history: History,
    buffers: Buffers,
    loads: Table<Load, LOADS>,
    accepted: u32,
}

// Clauses see the machine.
impl Model for Processor {
    ghost use Rattle.processor.specs.Machine.{Machine, machine_with};
    ghost use Rattle.processor.specs.Sound.{Facts};

    ghost Value = { Machine };

    ghost view = { λ p. machine_with p.history.run p.history.left p.buffers.rows p.loads p.accepted };

    ghost invariant = { λ p. Facts (machine_with p.history.run p.history.left p.buffers.rows p.loads p.accepted) };
}
