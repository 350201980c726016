// Inputs in memory that never fail.
ghost use Rattle.std.specs.Prelude.{◌≡◌, IsOk, IsTrue, Some, []};
ghost use Rattle.outside.specs.Calls.{ReadsFront, StartsFile};
ghost use Rattle.outside.specs.Files.{files_of, names_differ};

use crate::reading::{Reading, bytes_at, place_of, read_on};
use crate::{Failed, Inputs};
use std::marker::Model;

/// Inputs in memory that never fail, and tell all. A name that no file has is an empty input.
#[derive(Drop)]
pub struct SteadyInputs {
    files: Vec<(String, Vec<u8>)>,
    reading: Option<Reading>,
}

impl Model for SteadyInputs {
    ghost use Rattle.outside.specs.Files.{files_of};
    ghost use Rattle.outside.specs.Script.{Shelf, left_of};

    ghost Value = { Shelf };

    ghost view = { λ inputs. record {
      files = files_of inputs.files.items;
      left = left_of inputs.files.items inputs.reading;
    } };
}

impl SteadyInputs {
    /// Files under names that differ.
    pub fn new(files: Vec<(String, Vec<u8>)>) -> Self
        requires { IsTrue (names_differ (files_of files.items)) }
        ensures { result ≡ record { files = files_of files.items; left = [] } }
    {
        SteadyInputs {
            files,
            reading: None,
        }
    }
}

impl Inputs for SteadyInputs {
    ghost faults = { λ _. 0 };

    ghost files = { λ s. Some s.files };

    ghost left = { λ s. Some s.left };

    fn start(&mut self, name: &str) -> Result<(), Failed>
        ensures start { StartsFile (Some self.old.files) (Some self.new.files) (Some self.old.left)
            (Some self.new.left) 0 0 name.now result }
        ensures never { IsOk result }
    {
        match place_of(&self.files, name) {
            Some(place) => self.reading = Some(Reading { place, offset: 0 }),
            None => self.reading = None,
        }
        Ok(())
    }

    fn read(&mut self, buf: &mut [u8]) -> Result<usize, Failed>
        ensures read { ReadsFront (Some self.old.files) (Some self.new.files) (Some self.old.left)
            (Some self.new.left) 0 0 result buf.new }
        ensures never { IsOk result }
    {
        let Some(mut reading) = self.reading else {
            return Ok(0);
        };
        let content = bytes_at(&self.files, reading.place);
        let count = read_on(content, &mut reading.offset, buf, usize::MAX);
        self.reading = Some(reading);
        Ok(count)
    }
}
