// The rule of the table that a round's words lie in.
use atomic_table::{Seat, Table, TableRule};
use set_model::Entry;
use std::alloc::Global;
use std::collections::LinkedList;
use std::snapshot::Snapshot;
use step_core::{PassView, Words};

/// What a table seat knows. No value of it is made.
pub struct SeatView {
    /// A front of the history, as a note has it. The passes have their own.
    pub front: LinkedList<Entry>,
    /// The views of the passes that the table seat speaks for: one for a pass, none for a note.
    pub rights: LinkedList<PassView>,
}

/// What the table is told once, when it is made.
#[derive(Drop)]
pub struct Setup {
    /// The number of passes.
    pub seats: u64,
    /// The words that the round begins with.
    pub words: Snapshot<Words>,
}

/// The table invariant, and which table seat speaks for which pass.
pub struct RoundRule;

impl TableRule<u64, SeatView, Setup> for RoundRule {
    ghost use Rattle.cells.specs.Seats.{IsRuled, facts_of, first_seat};

    ghost holds = { λ setup. IsRuled (facts_of setup) };

    ghost first = { first_seat };
}

pub(crate) type RoundTable = Table<u64, SeatView, Setup, RoundRule, Global>;

pub(crate) type RoundSeat = Seat<u64, SeatView>;
