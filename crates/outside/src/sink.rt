// Sinks, whatever they are over.
ghost use Rattle.std.specs.Prelude.{ℕ, List, Option};
ghost use Rattle.outside.specs.Calls.{TakesPiece};

use crate::Failed;

/// A place for bytes to go.
pub trait Sink {
    /// How often a call has failed.
    ghost faults: { Self → ℕ };

    /// The bytes taken so far, where told.
    ghost written: { Self → Option (List ℕ) };

    /// Takes bytes from the front of the piece and gives their number, at least 1 where the piece
    /// isn't empty. After `Failed` none of them was taken.
    fn write(&mut self, piece: &[u8]) -> Result<usize, Failed>
        ensures { TakesPiece (written self.old) (written self.new) (faults self.old)
            (faults self.new) piece.now result };
}
