// What each kind of step at the table tells its pass, and how table seats are cut and put together.
ghost use Rattle.std.specs.Prelude.{[], ◌++◌};
ghost use Rattle.cells.specs.Moves.{Tells, load_head_tells, load_sealed_tells, load_bucket_tells, DrawTells, write_tells, SwapTells, freeze_tells, FillTells, HeadTells, LearnTells, view_after_hear};
ghost use Rattle.cells.specs.Past.{longest_front};
ghost use Rattle.cells.specs.Steps.{view_after_note};
ghost use Rattle.cells.specs.Seats.{pass_seat, note_seat, spent_seat, fresh_of, pass_of, other_passes};

use crate::SeatView;
use atomic_table::{Join, Play, Split};

pub(crate) struct LoadHead;

impl Play<u64, SeatView> for LoadHead {
    ghost then = { Tells load_head_tells };
}

pub(crate) struct LoadSealed;

impl Play<u64, SeatView> for LoadSealed {
    ghost then = { Tells load_sealed_tells };
}

pub(crate) struct LoadBucket;

impl Play<u64, SeatView> for LoadBucket {
    ghost then = { Tells load_bucket_tells };
}

pub(crate) struct Draw;

impl Play<u64, SeatView> for Draw {
    ghost then = { Tells DrawTells };
}

pub(crate) struct Write;

impl Play<u64, SeatView> for Write {
    ghost then = { Tells write_tells };
}

pub(crate) struct SwapRow;

impl Play<u64, SeatView> for SwapRow {
    ghost then = { Tells SwapTells };
}

pub(crate) struct Freeze;

impl Play<u64, SeatView> for Freeze {
    ghost then = { Tells freeze_tells };
}

pub(crate) struct InitBucket;

impl Play<u64, SeatView> for InitBucket {
    ghost then = { Tells FillTells };
}

pub(crate) struct SwapHead;

impl Play<u64, SeatView> for SwapHead {
    ghost then = { Tells HeadTells };
}

pub(crate) struct Learn;

impl Play<u64, SeatView> for Learn {
    ghost then = { Tells LearnTells };
}

// A pass's front gets a table seat of its own.
pub(crate) struct MakeNote;

impl Split<SeatView> for MakeNote {
    ghost left = { λ seat. pass_seat (view_after_note (pass_of seat)) };

    ghost right = { λ seat. note_seat (pass_of seat).front };
}

// A pass takes the front of a note in.
pub(crate) struct TakeNote;

impl Join<SeatView> for TakeNote {
    ghost both = { λ seat other. pass_seat (view_after_hear other.front (pass_of seat)) };

    ghost spent = { spent_seat };
}

// The first of a table seat's passes, which has made no step, gets a table seat of its own.
pub(crate) struct CutPass;

impl Split<SeatView> for CutPass {
    ghost left = { λ seat. record { front = seat.front; rights = other_passes seat.rights } };

    ghost right = { λ seat. pass_seat (fresh_of (pass_of seat)) };
}

// A table seat takes the passes of another in.
pub(crate) struct GatherPass;

impl Join<SeatView> for GatherPass {
    ghost both = { λ seat other.
        record { front = seat.front; rights = other.rights ++ seat.rights } };

    ghost spent = { spent_seat };
}

// The longest front of a table seat's passes gets a table seat of its own.
pub(crate) struct CutFront;

impl Split<SeatView> for CutFront {
    ghost left = { λ seat. seat };

    ghost right = { λ seat. note_seat (longest_front seat.rights) };
}
