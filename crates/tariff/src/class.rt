//! The classes of customers.

/// A class of customers, each with prices of its own.
#[derive(Clone, Copy, PartialEq, Eq, Debug)]
pub enum Class {
    /// Households.
    Household,
    /// Customers of neither other class.
    Other,
    /// Vulnerable customers.
    Vulnerable,
}
