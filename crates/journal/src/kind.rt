//! The kinds of line.

/// The kind of a line, by its first field.
#[derive(Clone, Copy, Debug)]
pub enum Kind {
    /// A meter reading, `READ`.
    Reading,
    /// A meter change, `SWAP`.
    Change,
    /// A correction, `CORR`.
    Correction,
    /// A payment, `PAY`.
    Payment,
    /// An issue, `ISSUE`.
    Issue,
    /// A year closing, `YEAR`.
    Year,
}
