//! Reads the numbers of a text.
ghost use Rattle.std.specs.Prelude.{◌+◌, ◌-◌, ◌*◌, ◌^◌, ◌<◌, ◌≤◌, ◌↔◌, decimal, IsTrue, unsigned_abs};
ghost use Rattle.fields.specs.Digits.{NegatesPositive, ReadsDigit, SpellsNumber};
ghost use Rattle.fields.specs.Reads.{Reads};
ghost use Rattle.std.specs.Fmt.{signed_decimal};
ghost use Rattle.std.specs.Int.{IsInRange};
ghost use Rattle.std.specs.Option.{SomeIff};
ghost use Rattle.std.specs.Str.Parse.{AllDigits, digits_value};

use crate::separators::HYPHEN;

/// The digit 0.
pub const ZERO: u8 = b'0';

pub(crate) const NINE: u8 = b'9';

/// How many digits there are.
pub const BASE: u64 = 10;

// Functions and no `TryFrom`: a number is read within a limit that its caller gives.

/// The number that `part` spells in decimal with no needless zero in front, where it is at most `most`.
pub fn number(part: &[u8], most: u64) -> Option<u64>
    ensures { Reads (λ n. n ≤ most) decimal part.now result }
{
    spelled(part).filter(|value| *value <= most)
}

// A minus and then a number: a reader of its own would be a twin of `spelled`.
/// The number that `part` spells likewise, after a minus where it is below 0, if it is within `most` either way.
pub fn signed_number(part: &[u8], most: u32) -> Option<i64>
    ensures { Reads (λ z. unsigned_abs z ≤ most) signed_decimal part.now result }
{
    match part {
        [HYPHEN, digits @ ..] => below_zero(number(digits, most as u64)?),
        _ => {
            let value = number(part, most as u64)?;
            Some(value as i64)
        }
    }
}

// The number below 0 with these digits, or none where they are those of 0, which has no minus.
fn below_zero(value: u64) -> Option<i64>
    requires { value < 2 ^ 32 }
    ensures { NegatesPositive value result }
{
    (value > 0).then(|| -(value as i64))
}

// The number of 64 bits that the part spells: its digits, of which the first is a 0 only where it stands alone.
fn spelled(part: &[u8]) -> Option<u64>
    ensures { SpellsNumber part.now result }
{
    match part {
        [] | [ZERO, _, ..] => None,
        digits => value_of(digits),
    }
}

// The number of 64 bits that the bytes write, where all are digits.
fn value_of(digits: &[u8]) -> Option<u64>
    ensures { let value = digits_value 10 digits.now in
        SomeIff result (AllDigits 10 digits.now × (value < 2 ^ 64)) value }
{
    let mut value: u64 = 0;
    for byte in digits {
        value = followed(value, *byte)?;
    }
    Some(value)
}

// The number of 64 bits that the digits of `front` write with the byte behind them, where it is a digit.
fn followed(front: u64, byte: u8) -> Option<u64>
    ensures { let value = front * 10 + (byte - 48) in
        SomeIff result (IsInRange 48 57 byte × (value < 2 ^ 64)) value }
{
    let ones = digit(byte)?;
    front.checked_mul(BASE)?.checked_add(ones as u64)
}

// The value of a digit.
pub(crate) fn digit(byte: u8) -> Option<u8>
    ensures { ReadsDigit byte result }
{
    match byte {
        ZERO..=NINE => Some(byte - ZERO),
        _ => None,
    }
}
