// A sink in memory whose writes fail where a test lists them.
ghost use Rattle.std.specs.Prelude.{◌≡◌, ◌+◌, ◌<◌, ◌≤◌, length, vec_len, IfOk, Some, []};
ghost use Rattle.outside.specs.Calls.{TakesPiece};
ghost use Rattle.outside.specs.Script.{SinkFails, SinkCalled};

use crate::faults::fail;
use crate::script::{append_front, is_refused};
use crate::{Failed, Sink};
use std::marker::Model;

/// A sink in memory, which tells all. Calls of `write` are numbered from 0.
#[derive(Drop)]
pub struct MemSink {
    space: Vec<u8>,
    used: usize,
    fails: Vec<u64>,
    piece: usize,
    calls: u64,
    faults: u64,
}

impl Model for MemSink {
    ghost use Rattle.std.specs.Prelude.{◌<◌, ◌≤◌, take, vec_len};
    ghost use Rattle.outside.specs.Script.{Record};

    ghost Value = { Record };

    ghost view = { λ sink. record {
      room = vec_len sink.space;
      fails = sink.fails.items;
      piece = sink.piece;
      calls = sink.calls;
      faults = sink.faults;
      written = take sink.used sink.space.items;
    } };

    ghost invariant = { λ s. (0 < s.piece) × (s.used ≤ vec_len s.space) };
}

impl MemSink {
    /// A sink that keeps what is written in `space`, which bounds it: no call takes memory. A write
    /// takes at most `piece` bytes. The calls whose numbers are in `fails` fail, and so does a
    /// write of something once all of the space is used; no other call does.
    pub fn new(space: Vec<u8>, fails: Vec<u64>, piece: usize) -> Self
        requires { 0 < piece }
        ensures { result ≡ record {
          room = vec_len space;
          fails = fails.items;
          piece = piece;
          calls = 0;
          faults = 0;
          written = [];
        } }
    {
        MemSink {
            space,
            used: 0,
            fails,
            piece,
            calls: 0,
            faults: 0,
        }
    }

    /// What was written so far.
    pub fn bytes(&self) -> &[u8]
        ensures { result.now ≡ self.now.written }
    {
        &self.space[..self.used]
    }
}

impl Sink for MemSink {
    ghost faults = { λ s. s.faults };

    ghost written = { λ s. Some s.written };

    fn write(&mut self, piece: &[u8]) -> Result<usize, Failed>
        ensures write { TakesPiece (Some self.old.written) (Some self.new.written)
            self.old.faults self.new.faults piece.now result }
        ensures fails { SinkFails self.old piece.now result }
        ensures piece { IfOk result (λ n. n ≤ self.old.piece) }
        ensures room { IfOk result (λ n. length self.old.written + n ≤ self.old.room) }
        ensures called { SinkCalled self.old self.new }
    {
        let is_full = self.used == self.space.len() && !piece.is_empty();
        if is_refused(&self.fails, &mut self.calls) || is_full {
            return Err(fail(&mut self.faults));
        }
        let count = append_front(piece, &mut self.space, self.used, self.piece);
        self.used += count;
        Ok(count)
    }
}
