// Inputs, whatever they are over.
ghost use Rattle.std.specs.Prelude.{ℕ, List, Option};
ghost use Rattle.outside.specs.Calls.{ReadsFront, StartsFile};
ghost use Rattle.outside.specs.Files.{Files};

use crate::Failed;

/// Named files, of which one at a time is read from its start.
pub trait Inputs {
    /// How often a call has failed.
    ghost faults: { Self → ℕ };

    /// Names with their bytes, where told.
    ghost files: { Self → Option Files };

    /// The unread bytes of the file last started, where told.
    ghost left: { Self → Option (List ℕ) };

    /// Starts the file of this name: all its bytes are left to be read, none where there is no such
    /// file. After `Failed` nothing is started.
    fn start(&mut self, name: &str) -> Result<(), Failed>
        ensures { StartsFile (files self.old) (files self.new) (left self.old) (left self.new)
            (faults self.old) (faults self.new) name.now result };

    /// Reads into the front of the buffer, and gives the number of bytes: 0 only where nothing is
    /// left or the buffer is empty. After `Failed` the same bytes are left.
    fn read(&mut self, buf: &mut [u8]) -> Result<usize, Failed>
        ensures { ReadsFront (files self.old) (files self.new) (left self.old) (left self.new)
            (faults self.old) (faults self.new) result buf.new };
}
