// What passes hand each other.
ghost use Rattle.std.specs.Prelude.{◌≡◌};
ghost use Rattle.cells.specs.Steps.{Learns, view_after_note};
ghost use Rattle.cells.specs.Tokens.{IsPassOf, IsSamePass};

use crate::rule::RoundSeat;
use crate::{Pass, Round, plays};
use std::marker::Model;
use step_core::HEAD;

/// How far a pass has seen the history, for another pass to learn. It has no bytes.
#[derive(Drop)]
pub struct Note {
    pub(crate) seat: RoundSeat,
}

impl Model for Note {
    ghost use Rattle.cells.specs.Tokens.{NoteValue};

    ghost Value = { NoteValue };

    ghost use Rattle.cells.specs.Modeled.{note_value, IsNote};

    ghost view = { note_value };

    ghost invariant = { IsNote };
}

impl Round {
    /// A note with the pass's front. The pass stays as it is, but for the count of its notes.
    pub fn note(&self, pass: &mut Pass) -> Note
        requires pass { IsPassOf self.now pass.old }
        ensures pass { IsSamePass pass.old pass.new }
        ensures view { pass.new.view ≡ view_after_note pass.old.view }
        ensures table { result.table ≡ self.now.table }
        ensures front { result.front ≡ pass.old.view.front }
    {
        let shared = &self.table.shared;
        let seat = &mut pass.seat;
        let seat = shared.split_seat::<plays::MakeNote>(seat);
        Note { seat }
    }

    /// The pass learns what the note's pass had seen. Its front is then the longer of both, which
    /// begins with both.
    pub fn learn(&self, pass: &mut Pass, note: Note)
        requires pass { IsPassOf self.now pass.old }
        requires note { note.table ≡ self.now.table }
        ensures pass { IsSamePass pass.old pass.new }
        ensures learns { Learns pass.old.view note.front pass.new.view }
    {
        let shared = &self.table.shared;
        let seat = &mut pass.seat;
        // Two steps are needed. The first tells only how the two views are put together: the note's
        // front is then kept beside the pass's own. That both begin one history, so that the longer
        // one begins with both, is known at a step alone: the second.
        shared.join_seat::<plays::TakeNote>(seat, note.seat);
        shared.load::<plays::Learn>(seat, HEAD as usize);
    }
}
