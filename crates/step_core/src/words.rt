ghost use Rattle.std.specs.Prelude.{◌≡◌, ℕ, ◌+◌, ◌<◌, ◌≤◌, List, length, take, drop, slice_index, slice_set};

use std::marker::Model;

/// The words of a round, seen as the list of their numbers.
#[derive(Drop)]
pub struct Words {
    words: Vec<u64>,
}

impl Model for Words {
    ghost Value = { List ℕ };

    ghost view = { λ w. w.words.items };
}

impl Words {
    /// These words. Takes no memory.
    pub fn from_vec(words: Vec<u64>) -> Self
        ensures { result ≡ words.items }
    {
        Words { words }
    }

    /// The number of words.
    pub fn len(&self) -> u64
        ensures { result ≡ length self.now }
    {
        self.words.len() as u64
    }

    /// The word at the place, counted from 0.
    pub fn word(&self, at: u64) -> u64
        requires { at < length self.now }
        ensures { result ≡ slice_index self.now at }
    {
        self.words[at as usize]
    }

    /// All of them.
    pub fn as_slice(&self) -> &[u64]
        ensures { result.now ≡ self.now }
    {
        self.words.as_slice()
    }

    /// The words of a part that begins at a place and has a length.
    pub(crate) fn part(&self, first: u64, len: u64) -> &[u64]
        requires { first + len ≤ length self.now }
        ensures { result.now ≡ take len (drop first self.now) }
    {
        &self.words[first as usize..(first + len) as usize]
    }

    /// Stores the value at the place.
    pub(crate) fn store(&mut self, at: u64, value: u64)
        requires { at < length self.old }
        ensures { self.new ≡ slice_set self.old at value }
    {
        self.words[at as usize] = value;
    }
}
