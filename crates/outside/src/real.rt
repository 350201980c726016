// Inputs and sinks over the system.
ghost use Rattle.std.specs.Prelude.{◌≡◌, IsSome, None, OnErr, OnOk};
ghost use Rattle.std.specs.Io.{ReadsAtMost};
ghost use Rattle.outside.specs.Calls.{HandsOn, ReadsStarted, TakesPiece};
ghost use Rattle.outside.specs.Faults.{HasCause};
ghost use Rattle.outside.specs.Taken.{TakesSome};

use crate::faults::fail;
use crate::{Failed, Inputs, Sink};
use std::io::{ErrorKind, Read, Write};
use std::rt::Files;
use std::{fs, io};

/// Inputs over the files of the system. They tell nothing of what the files hold.
#[derive(Drop)]
pub struct RealInputs<R: Files + Drop> {
    rt: R,
    started: Option<R::File>,
    faults: u64,
}

impl<R: Files + Drop> RealInputs<R> {
    /// No file is started yet, and no fault was met.
    pub fn new(rt: R) -> Self
        ensures { ⟦<RealInputs<R> as Inputs>⟧.faults result ≡ 0 }
    {
        RealInputs {
            rt,
            started: None,
            faults: 0,
        }
    }
}

impl<R: Files + Drop> Inputs for RealInputs<R> {
    ghost faults = { λ inputs. inputs.faults };

    ghost files = { λ _. None };

    ghost left = { λ _. None };

    fn start(&mut self, name: &str) -> Result<(), Failed>
        ensures cause { HasCause self.old.faults self.new.faults result }
        ensures opened { OnOk result (IsSome self.new.started) }
        ensures nothing { OnErr result (self.new.started ≡ None) }
    {
        self.started = None;
        match fs::open(&self.rt, name) {
            Ok(file) => {
                self.started = Some(file);
                Ok(())
            }
            Err(_) => Err(fail(&mut self.faults)),
        }
    }

    fn read(&mut self, buf: &mut [u8]) -> Result<usize, Failed>
        ensures bound { ReadsAtMost result buf.new }
        ensures cause { HasCause self.old.faults self.new.faults result }
        ensures started { ReadsStarted ⟦<R::File as Read>⟧.remaining self.old.started
            self.new.started result buf.new }
    {
        let Some(file) = &mut self.started else {
            return Ok(0);
        };
        match file.read(buf) {
            Ok(count) => Ok(count),
            Err(_) => Err(fail(&mut self.faults)),
        }
    }
}

/// A sink over a writer, flushed after each write. It tells nothing of what the writer holds.
#[derive(Drop)]
pub struct RealSink<W: Write> {
    writer: W,
    faults: u64,
}

impl<W: Write> RealSink<W> {
    /// No fault was met yet.
    pub fn over(writer: W) -> Self
        ensures { ⟦<RealSink<W> as Sink>⟧.faults result ≡ 0 }
    {
        RealSink { writer, faults: 0 }
    }
}

impl<W: Write> Sink for RealSink<W> {
    ghost faults = { λ sink. sink.faults };

    ghost written = { λ _. None };

    fn write(&mut self, piece: &[u8]) -> Result<usize, Failed>
        ensures write { TakesPiece None None self.old.faults self.new.faults piece.now result }
        ensures writer { HandsOn (W.contents self.old.writer) (W.contents self.new.writer)
            piece.now result }
    {
        match hand_on(&mut self.writer, piece) {
            Ok(count) => Ok(count),
            Err(_) => Err(fail(&mut self.faults)),
        }
    }
}

// Writes the piece, and flushes what was taken. A writer that takes nothing of something fails: it
// would be asked for ever.
fn hand_on<W: Write>(writer: &mut W, piece: &[u8]) -> io::Result<usize>
    ensures taken { TakesSome piece.now result }
    ensures bytes { HandsOn (W.contents writer.old) (W.contents writer.new) piece.now result }
{
    let count = writer.write(piece)?;
    if count == 0 && !piece.is_empty() {
        return Err(ErrorKind::WriteZero.into());
    }
    writer.flush()?;
    Ok(count)
}
