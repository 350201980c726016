// Inputs in memory whose calls fail where a test lists them.
ghost use Rattle.std.specs.Prelude.{◌≡◌, ◌<◌, ◌≤◌, not, false, IfOk, IsTrue, Some, []};
ghost use Rattle.outside.specs.Calls.{ReadsFront, StartsFile};
ghost use Rattle.outside.specs.Files.{files_of, has_file, names_differ};
ghost use Rattle.outside.specs.Script.{Called, FailsAsListed};

use crate::faults::fail;
use crate::reading::{Reading, bytes_at, place_of, read_on};
use crate::script::is_refused;
use crate::{Failed, Inputs};
use std::marker::Model;

/// Inputs in memory, which tell all. Calls of `start` and `read` are numbered together from 0.
#[derive(Drop)]
pub struct MemInputs {
    files: Vec<(String, Vec<u8>)>,
    fails: Vec<u64>,
    piece: usize,
    calls: u64,
    faults: u64,
    reading: Option<Reading>,
}

impl Model for MemInputs {
    ghost use Rattle.std.specs.Prelude.{◌<◌};
    ghost use Rattle.outside.specs.Files.{files_of};
    ghost use Rattle.outside.specs.Script.{Script, left_of};

    ghost Value = { Script };

    ghost view = { λ inputs. record {
      files = files_of inputs.files.items;
      fails = inputs.fails.items;
      piece = inputs.piece;
      calls = inputs.calls;
      faults = inputs.faults;
      left = left_of inputs.files.items inputs.reading;
    } };

    ghost invariant = { λ m. 0 < m.piece };
}

impl MemInputs {
    /// Files under names that differ; a read gives at most `piece` bytes. The calls whose numbers
    /// are in `fails` fail, and so does a start of a name that no file has; no other call does.
    pub fn new(files: Vec<(String, Vec<u8>)>, fails: Vec<u64>, piece: usize) -> Self
        requires names { IsTrue (names_differ (files_of files.items)) }
        requires piece { 0 < piece }
        ensures { result ≡ record {
          files = files_of files.items;
          fails = fails.items;
          piece = piece;
          calls = 0;
          faults = 0;
          left = [];
        } }
    {
        MemInputs {
            files,
            fails,
            piece,
            calls: 0,
            faults: 0,
            reading: None,
        }
    }
}

impl Inputs for MemInputs {
    ghost faults = { λ m. m.faults };

    ghost files = { λ m. Some m.files };

    ghost left = { λ m. Some m.left };

    fn start(&mut self, name: &str) -> Result<(), Failed>
        ensures start { StartsFile (Some self.old.files) (Some self.new.files) (Some self.old.left)
            (Some self.new.left) self.old.faults self.new.faults name.now result }
        ensures fails { FailsAsListed self.old (not (has_file self.old.files name.now)) result }
        ensures called { Called self.old self.new }
    {
        self.reading = None;
        if is_refused(&self.fails, &mut self.calls) {
            return Err(fail(&mut self.faults));
        }
        match place_of(&self.files, name) {
            Some(place) => {
                self.reading = Some(Reading { place, offset: 0 });
                Ok(())
            }
            None => Err(fail(&mut self.faults)),
        }
    }

    fn read(&mut self, buf: &mut [u8]) -> Result<usize, Failed>
        ensures read { ReadsFront (Some self.old.files) (Some self.new.files) (Some self.old.left)
            (Some self.new.left) self.old.faults self.new.faults result buf.new }
        ensures fails { FailsAsListed self.old false result }
        ensures piece { IfOk result (λ n. n ≤ self.old.piece) }
        ensures called { Called self.old self.new }
    {
        if is_refused(&self.fails, &mut self.calls) {
            return Err(fail(&mut self.faults));
        }
        let Some(mut reading) = self.reading else {
            return Ok(0);
        };
        let content = bytes_at(&self.files, reading.place);
        let count = read_on(content, &mut reading.offset, buf, self.piece);
        self.reading = Some(reading);
        Ok(count)
    }
}
