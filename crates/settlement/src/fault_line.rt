//! The line of a fault.
ghost use Rattle.std.specs.Prelude.{◌≡◌, ◌≤◌, length};
ghost use Rattle.settlement.specs.Faults.{WritesFault, fault_line, layer_word};

use crate::fault::{Layer, RunFault};
use crate::refusal::OutputRefusal;
use cells::{Cell, write_row};

/// The room that the writer of a fault asks for.
pub const FAULT_ROOM: usize = 64;

/// Writes the line of a fault at the slice's start, and answers its length; or refuses a slice shorter than `FAULT_ROOM`, and leaves it as it was.
#[tactic(auto, using(crate::proofs::Lengths::lengths))]
pub fn write_fault(fault: RunFault, out: &mut [u8]) -> Result<usize, OutputRefusal>
    ensures written { WritesFault fault out.old out.new result }
    ensures within_64 { length (fault_line fault) ≤ 64 }
{
    if out.len() < FAULT_ROOM {
        return Err(OutputRefusal::Room);
    }
    let cells = [
        Cell::Word(b"FAULT"),
        Cell::Number(fault.line as u64),
        Cell::Number(fault.field.unwrap_or(0) as u64),
        Cell::Word(layer_word(fault.layer)),
        Cell::Number(fault.refusal.number() as u64),
    ];
    // No fault is longer than that, so the writer of the row does not refuse.
    write_row(&cells, out, 0).ok_or(OutputRefusal::Room)
}

// The word of a part of a run.
fn layer_word(layer: Layer) -> &'static [u8]
    ensures { result.now ≡ layer_word layer }
{
    match layer {
        Layer::Book => b"BOOK",
        Layer::Text => b"TEXT",
    }
}
