// The sink that only takes.
ghost use Rattle.std.specs.Prelude.{◌≡◌, None, Ok, length};
ghost use Rattle.outside.specs.Calls.{TakesPiece};

use crate::{Failed, Sink};

/// A sink that takes everything, keeps nothing and never fails. It tells nothing.
#[derive(Clone, Copy, Debug, PartialEq, Eq)]
pub struct CountSink;

impl CountSink {
    /// Its count of faults is 0 for ever.
    pub fn new() -> Self {
        CountSink
    }
}

impl Sink for CountSink {
    ghost faults = { λ _. 0 };

    ghost written = { λ _. None };

    fn write(&mut self, piece: &[u8]) -> Result<usize, Failed>
        ensures write { TakesPiece None None 0 0 piece.now result }
        ensures all { result ≡ Ok (length piece.now) }
    {
        Ok(piece.len())
    }
}
