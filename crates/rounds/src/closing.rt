// What a round ends with.
ghost use Rattle.std.specs.Prelude.{◌≡◌, ◌<◌, length};
ghost use Rattle.std.specs.List.Sorted.{IsStrictlyIncreasing};
ghost use Rattle.rounds.specs.Closings.{account_at};

use crate::{Account, Front};
use std::marker::Model;

/// The end of a round: the keys of its set, the exponent of its head, its last NEXT, its whole
/// history, and each pass's account. Only `end_round` makes one.
#[derive(Drop)]
pub struct Closing {
    pub(crate) keys: Vec<u64>,
    pub(crate) exponent: u32,
    pub(crate) next: u64,
    pub(crate) front: Front,
    pub(crate) accounts: Vec<Account>,
}

impl Model for Closing {
    ghost use Rattle.rounds.specs.Closings.{ClosingValue};

    ghost Value = { ClosingValue };

    ghost use Rattle.rounds.specs.Modeled.{closing_value, HasRisingKeys};

    ghost view = { closing_value };

    ghost invariant = { HasRisingKeys };
}

impl Closing {
    /// The keys of the set, each once, rising.
    pub fn keys(&self) -> &[u64]
        ensures keys { result.now ≡ self.now.keys }
        ensures rising { IsStrictlyIncreasing result.now }
    {
        &self.keys
    }

    /// The exponent of the head generation, which had 2^exponent buckets.
    pub fn exponent(&self) -> u32
        ensures { result ≡ self.now.exponent }
    {
        self.exponent
    }

    /// The number of the opening words and of all words drawn, also by the draws that passed the end.
    pub fn next(&self) -> u64
        ensures { result ≡ self.now.next }
    {
        self.next
    }

    /// The whole history. It has no bytes: contracts see it.
    pub fn front(&self) -> &Front
        ensures { result.now ≡ self.now.front }
    {
        &self.front
    }

    /// How many calls the pass of this number, from 0, had begun.
    pub fn calls(&self, number: u32) -> u64
        requires { number < length self.now.accounts }
        ensures { result ≡ (account_at self.now.accounts number).calls }
    {
        self.accounts[number as usize].calls
    }

    /// The number of words drawn before the draw by which the pass of this number, from 0, passed the
    /// end, if it made one; the opening words count.
    pub fn spent(&self, number: u32) -> Option<u64>
        requires { number < length self.now.accounts }
        ensures { result ≡ (account_at self.now.accounts number).spent }
    {
        self.accounts[number as usize].spent
    }
}
