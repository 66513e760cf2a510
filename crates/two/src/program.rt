//! The program over standard input and output.
ghost use Rattle.std.specs.Prelude.{◌≤◌, ◌++◌, take};
ghost use Rattle.cells.specs.Cells.{Puts};
ghost use Rattle.two.specs.Printing.{PrintsOutput, PrintsJournal, fault_text};

use crate::two::settle_two;
use settlement::{FAULT_ROOM, MOST_JOURNAL, RunFault, write_fault};
use std::io;
use std::io::{Read, Write};

/// The room for the output, in bytes.
pub const OUTPUT: usize = 65_536;

/// How much of its two slices the program prints for a journal, and the fault that it tells in words besides.
#[derive(Clone, Copy, PartialEq, Eq, Debug)]
pub struct Lengths {
    /// The bytes of the output.
    pub output: usize,
    /// The bytes of the line of the fault, or 0 where there is none.
    pub fault: usize,
    /// The fault that the run stopped at, or none.
    pub stopped_at: Option<RunFault>,
}

/// Writes what the program prints for a journal: the output at the start of one slice, and the line of the fault, if there is one, at that of another.
pub fn write_printed(
    journal: &[u8],
    output: &mut [u8; OUTPUT],
    line: &mut [u8; FAULT_ROOM],
) -> Lengths
    ensures slices { PrintsJournal journal.now
        (output.old, line.old) result (output.new, line.new) }
    ensures printed { PrintsOutput journal.now
        (take result.output output.new ++ take result.fault line.new) }
    ensures output { result.output ≤ 65536 }
    ensures fault { result.fault ≤ 64 }
{
    let outcome = settle_two(journal, output);
    Lengths {
        output: outcome.written,
        fault: write_line(outcome.fault, line),
        stopped_at: outcome.fault,
    }
}

// Writes the line of a fault, which any such room holds, and answers its length.
fn write_line(fault: Option<RunFault>, line: &mut [u8; FAULT_ROOM]) -> usize
    ensures written { Puts line.old 0 (fault_text fault) line.new result }
    ensures within_64 { result ≤ 64 }
{
    let Some(fault) = fault else {
        return 0;
    };
    let Ok(end) = write_fault(fault, line) else {
        unreachable!()
    };
    end
}

/// Prints what the journal on standard input comes to, and besides, on standard error, the fault that it stops at in words.
pub fn settle_input(rt: HostRuntime) -> io::Result<()> {
    let mut journal = Vec::new(rt.alloc());
    // One byte past the limit tells that a journal is too long, so no more is kept.
    let limit = MOST_JOURNAL as u64 + 1;
    rt.stdin().take(limit).read_to_end(&mut journal)?;
    let mut output = [0; OUTPUT];
    let mut line = [0; FAULT_ROOM];
    let lengths = write_printed(&journal, &mut output, &mut line);
    let mut stdout = rt.stdout();
    stdout.write_all(&output[..lengths.output])?;
    stdout.write_all(&line[..lengths.fault])?;
    match lengths.stopped_at {
        Some(fault) => eprintln!(rt; "{fault}"),
        None => Ok(()),
    }
}
