//! The words of a journal, read and told.
ghost use Rattle.std.specs.Prelude.{◌≡◌, ◌↔◌, ℕ, List, Contains, IsTrue};
ghost use Rattle.fields.specs.Reads.{Reads};
ghost use Rattle.fields.specs.Tokens.{LooksLikeWord};
ghost use Rattle.std.proofs.Common.{rules};
ghost use Rattle.journal.specs.Words.{KindForm, WordForm, flow_word, kind_word, zone_word};

use crate::kind::Kind;
use fields::{Column, Token, token_of};
use ledger::{Flow, Zone};

/// What is told by a word.
pub trait Worded: Copy + 'static {
    // The word of a value.
    ghost word_of: { Self → List ℕ };

    /// Every value.
    fn all() -> &'static [Self]
        ensures { (value : Self) → Contains result.now value };

    /// The word of the value.
    fn word(self) -> &'static [u8]
        ensures { result.now ≡ word_of self };

    // No word looks like a number or a date.
    ghost looks: { (value : Self) → LooksLikeWord (word_of value) };

    /// The value with this word, or none where no value has it.
    final fn of_word(word: &[u8]) -> Option<Self>
        ensures { Reads (λ _. Unit {0}) word_of word.now result }
    {
        Self::all()
            .iter()
            .copied()
            .find(|value| is_same(value.word(), word))
    }
}

// Whether the words are the same. Not `==`, which for slices of four bytes and more is a call: this is compiled into the search, which knows its words.
fn is_same(word: &[u8], other: &[u8]) -> bool
    ensures { IsTrue result ↔ (word.now ≡ other.now) }
{
    word.len() == other.len() && word.iter().zip(other).all(|(byte, other)| byte == other)
}

impl Worded for Zone {
    ghost word_of = { zone_word };

    ghost looks = { Prim.search rules };

    fn all() -> &'static [Zone] {
        &[Zone::Day, Zone::Night]
    }

    fn word(self) -> &'static [u8] {
        match self {
            Zone::Day => b"DAY",
            Zone::Night => b"NIGHT",
        }
    }
}

impl Worded for Flow {
    ghost word_of = { flow_word };

    ghost looks = { Prim.search rules };

    fn all() -> &'static [Flow] {
        &[Flow::Consumed, Flow::Delivered]
    }

    fn word(self) -> &'static [u8] {
        match self {
            Flow::Consumed => b"USE",
            Flow::Delivered => b"GIVE",
        }
    }
}

impl Worded for Kind {
    ghost word_of = { kind_word };

    ghost looks = { Prim.search rules };

    fn all() -> &'static [Kind] {
        &[
            Kind::Reading,
            Kind::Change,
            Kind::Correction,
            Kind::Payment,
            Kind::Issue,
            Kind::Year,
        ]
    }

    fn word(self) -> &'static [u8] {
        match self {
            Kind::Reading => b"READ",
            Kind::Change => b"SWAP",
            Kind::Correction => b"CORR",
            Kind::Payment => b"PAY",
            Kind::Issue => b"ISSUE",
            Kind::Year => b"YEAR",
        }
    }
}

/// A value by its word.
#[derive(Clone, Copy, Debug)]
pub struct Word<W>(pub W);

impl<W: Worded> Column for Word<W> {
    ghost spelling = { record {
      form = WordForm W.word_of;
      fine = λ _. Unit {0};
      text = λ word. W.word_of word.0;
    } };

    fn of(part: &[u8]) -> Option<Word<W>> {
        match token_of(part) {
            Token::Word(word) => W::of_word(word).map(Word),
            _ => None,
        }
    }
}

// The first field of every line is a kind, so a kind is a column without a wrapper too.
impl Column for Kind {
    ghost spelling = { record {
      form = KindForm;
      fine = λ _. Unit {0};
      text = kind_word;
    } };

    fn of(part: &[u8]) -> Option<Kind> {
        let Word(kind) = Word::of(part)?;
        Some(kind)
    }
}
