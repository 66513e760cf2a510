//! Finds the commas and the line feeds of a text.
ghost use Rattle.std.specs.Prelude.{◌≡◌, ◌+◌, ◌==◌, ◌<◌, ◌≤◌, ◌↔◌, IsTrue, length};
ghost use Rattle.fields.specs.Bytes.{comma, line_feed};
ghost use Rattle.fields.specs.Cuts.{IsAround, Cuts};
ghost use Rattle.fields.specs.Separators.{IsNext, IsNextLineFeed};
ghost use Rattle.fields.specs.Partings.{CutsInto};
ghost use Rattle.std.specs.List.{count_by, position_from};
ghost use Rattle.std.specs.Simd.Lanes.{chunk};

use memchr::memchr;
use std::simd::prelude::*;

/// What parts the fields of a line.
pub const COMMA: u8 = b',';

/// What ends a line.
pub const LINE_FEED: u8 = b'\n';

/// What stands for a missing field, before a number below 0, and in a date.
pub const HYPHEN: u8 = b'-';

// How many bytes are looked at together where commas are counted.
const BLOCK: usize = 16;

/// The text before the first comma and the text after it, or none where there is no comma.
pub fn cut(text: &[u8]) -> Option<(&[u8], &[u8])>
    ensures { Cuts comma text.now result }
{
    let i = first_comma(text)?;
    Some(around(text, i))
}

// A slice and no array as the answer: the borrow checker covers no array of references whose length is a parameter.
/// Cuts a text at its commas into just as many fields as the slice has; or answers none, with the slice as it was, where the text has more or fewer.
pub fn cut_into<'a>(text: &'a [u8], fields: &mut [&'a [u8]]) -> Option<()>
    ensures { CutsInto text.now fields.old result fields.new }
{
    // Every text has a field, also the empty one.
    if fields.is_empty() {
        return None;
    }
    // It has one more than commas, which are counted before the first field is written: a text with more or fewer writes none.
    let last = fields.len() - 1;
    if !has_commas(text, last) {
        return None;
    }
    let mut rest = text;
    for place in 0..last {
        let Some((field, after)) = cut(rest) else {
            unreachable!()
        };
        fields[place] = field;
        rest = after;
    }
    fields[last] = rest;
    Some(())
}

// Whether the text has just so many commas. They are counted by blocks, which takes half of what a count byte by byte takes, and a text with more is not gone through to its end.
fn has_commas(text: &[u8], count: usize) -> bool
    ensures { IsTrue result ↔ (count_by (λ byte. byte == comma) text.now ≡ count) }
{
    let blocks = text.len() / BLOCK;
    let mut total = 0;
    for block in 0..blocks {
        total += commas_of_block(text, BLOCK * block) as usize;
        if total > count {
            return false;
        }
    }
    total + commas_of_few(&text[BLOCK * blocks..]) == count
}

// How many bytes of the block from `at` on are commas.
fn commas_of_block(text: &[u8], at: usize) -> u32
    requires { at + 16 ≤ length text.now }
    ensures { result ≡ count_by (λ byte. byte == comma) (chunk at 16 text.now) }
{
    u8x16::from_slice(&text[at..])
        .simd_eq(u8x16::splat(COMMA))
        .to_bitmask()
        .count_ones()
}

// How many commas a short text has.
fn commas_of_few(text: &[u8]) -> usize
    ensures { result ≡ count_by (λ byte. byte == comma) text.now }
{
    let mut total = 0;
    for byte in text {
        if *byte == COMMA {
            total += 1;
        }
    }
    total
}

// Not one `cut` with the separator as a parameter: the line feed has one search of its own, which every reader of lines goes through.
/// The first line without its line feed and the text after it, or none where no line ends.
pub fn line(text: &[u8]) -> Option<(&[u8], &[u8])>
    ensures { Cuts line_feed text.now result }
{
    let i = next_line_feed(text, 0)?;
    Some(around(text, i))
}

/// The index of the first line feed at or after `from`, or none where none follows.
pub fn next_line_feed(text: &[u8], from: usize) -> Option<usize>
    ensures { IsNextLineFeed text.now from result }
{
    next(text, from, LINE_FEED)
}

// The text before the byte at `i` and the text after it.
fn around(text: &[u8], i: usize) -> (&[u8], &[u8])
    requires { i < length text.now }
    ensures { IsAround text.now i result }
{
    (&text[..i], &text[i + 1..])
}

// The index of the first byte at or after `from` that is the separator.
fn next(text: &[u8], from: usize, separator: u8) -> Option<usize>
    ensures { IsNext separator text.now from result }
{
    let rest = text.get(from..)?;
    let ahead = memchr(separator, rest)?;
    Some(from + ahead)
}

// The index of the first comma. Its bytes are tested one by one: a field is short, and `memchr` takes longer to start.
fn first_comma(text: &[u8]) -> Option<usize>
    ensures { result ≡ position_from (λ byte. byte == comma) 0 text.now }
{
    text.iter().position(|byte| *byte == COMMA)
}
