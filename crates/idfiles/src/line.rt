// A line, byte by byte: what its bytes so far are, and what it is once it ends.
ghost use Rattle.std.specs.Prelude.{◌≡◌, ◌==◌, ◌↔◌, ℕ, IsTrue, true, false, ◌≤◌, ◌<◌, List, length, take, slice_index};
ghost use Rattle.std.specs.List.{list_all};
ghost use Rattle.std.specs.Char.{is_ascii_digit};
ghost use Rattle.idfiles.specs.Grammar.{IsIdLine, is_inner, lf};
ghost use Rattle.idfiles.specs.Limits.{most_digits};
ghost use Rattle.idfiles.specs.Machine.{IsAfter, after_byte, after_bytes, at_end, keeps_at, with_digit};

use crate::digits::{Digits, leading_digits, with_digit};
use crate::front::{ByteKind, leading};

/// An id has at most so many digits.
pub const MAX_DIGITS: u32 = 20;

/// What a whole line is.
#[derive(Clone, Copy, Debug, PartialEq, Eq)]
pub enum Line {
    /// It gives no record.
    Blank,
    /// It gives this id.
    Id(u64),
    /// It is a fault of the file.
    Bad,
}

/// What the bytes of a line so far are. It has a constant size, and takes one byte at a time.
#[derive(Clone, Copy, Debug, PartialEq, Eq)]
pub enum LineState {
    /// Nothing but blanks.
    Blank,
    /// Blanks, then digits.
    Digits {
        /// How many digits, at most 20.
        count: u32,
        /// The number that they write.
        value: u64,
    },
    /// Blanks, digits and at least one blank.
    Behind {
        /// The number that the digits write.
        value: u64,
    },
    /// Blanks, then a CR.
    BlankCr,
    /// Blanks, digits and perhaps blanks, then a CR.
    IdCr {
        /// The number that the digits write.
        value: u64,
    },
    /// What no further byte can mend.
    Bad,
}

// The state behind so many digits with this value, and one more.
fn more_digits(count: u32, value: u64, digit: u8) -> LineState
    requires { is_ascii_digit digit ≡ true }
    ensures { result ≡ with_digit count value digit }
{
    match with_digit(value, digit) {
        Some(value) if count < MAX_DIGITS => LineState::Digits {
            count: count + 1,
            value,
        },
        _ => LineState::Bad,
    }
}

// The state behind the digits at the front.
fn digits_run(bytes: &[u8]) -> Run
    requires { is_ascii_digit (slice_index bytes.now 0) ≡ true }
    ensures taken { (0 < result.taken) × (result.taken ≤ length bytes.now) }
    ensures inner { list_all is_inner (take result.taken bytes.now) ≡ true }
    ensures state { result.state ≡ after_bytes LineState.Blank (take result.taken bytes.now) }
{
    let digits = leading_digits(bytes);
    Run {
        state: LineState::of_digits(digits),
        taken: digits.count,
    }
}

/// A state, and how many bytes led to it.
#[derive(Clone, Copy)]
pub struct Run {
    /// The state behind them.
    pub state: LineState,
    /// How many they are.
    pub taken: usize,
}

impl LineState {
    /// What a line is that has begun with these digits.
    pub fn of_digits(digits: Digits) -> LineState
        requires { digits.count ≤ most_digits }
        ensures { result ≡ LineState.Digits digits.count digits.value }
    {
        LineState::Digits {
            count: digits.count as u32,
            value: digits.value,
        }
    }

    /// Whether nothing but blanks has come.
    pub fn is_blank(self) -> bool
        ensures { IsTrue result ↔ (self ≡ LineState.Blank) }
    {
        matches!(self, LineState::Blank)
    }

    // The bytes that change nothing.
    fn keeps_at(self) -> Option<ByteKind>
        ensures { result ≡ keeps_at self }
    {
        match self {
            LineState::Blank | LineState::Behind { .. } => Some(ByteKind::Blank),
            LineState::Bad => Some(ByteKind::Inner),
            LineState::Digits { .. } | LineState::BlankCr | LineState::IdCr { .. } => None,
        }
    }

    /// What they are with some more bytes, of which the first is no LF: with all the digits that
    /// stand together, or all that change nothing, else with one byte.
    pub fn run(self, bytes: &[u8]) -> Run
        requires some { 0 < length bytes.now }
        requires inner { (slice_index bytes.now 0 == lf) ≡ false }
        ensures taken { (0 < result.taken) × (result.taken ≤ length bytes.now) }
        ensures inner { list_all is_inner (take result.taken bytes.now) ≡ true }
        ensures state { result.state ≡ after_bytes self (take result.taken bytes.now) }
    {
        let first = bytes[0];
        match self.keeps_at() {
            Some(kind) if kind.has(first) => Run {
                state: self,
                taken: leading(bytes, kind),
            },
            _ if self.is_blank() && first.is_ascii_digit() => digits_run(bytes),
            _ => Run {
                state: self.next(first),
                taken: 1,
            },
        }
    }

    /// What they are with one more byte, which is no LF.
    pub fn next(self, byte: u8) -> LineState
        ensures { result ≡ after_byte self byte }
    {
        match (self, byte) {
            (LineState::Blank | LineState::Behind { .. }, b' ' | b'\t') => self,
            (LineState::Blank, b'\r') => LineState::BlankCr,
            (LineState::Blank, b'0'..=b'9') => LineState::Digits {
                count: 1,
                value: u64::from(byte - b'0'),
            },
            (LineState::Digits { count, value }, b'0'..=b'9') => more_digits(count, value, byte),
            (LineState::Digits { value, .. }, b' ' | b'\t') => LineState::Behind { value },
            (LineState::Digits { value, .. } | LineState::Behind { value }, b'\r') => {
                LineState::IdCr { value }
            }
            _ => LineState::Bad,
        }
    }

    /// What the line is if it ends here.
    pub fn line(self) -> Line
        ensures state { result ≡ at_end self }
        ensures grammar { (text : List ℕ) → IsAfter text self → IsIdLine text result }
    {
        match self {
            LineState::Blank | LineState::BlankCr => Line::Blank,
            LineState::Digits { value, .. }
            | LineState::Behind { value }
            | LineState::IdCr { value } => Line::Id(value),
            LineState::Bad => Line::Bad,
        }
    }
}
