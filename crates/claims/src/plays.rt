// What a draw tells its seat, and how seats are cut and put together.
ghost use Rattle.claims.specs.Moves.{DrawTells};
ghost use Rattle.claims.specs.Views.{rest_view, part_view, both_views, no_view};

use crate::rule::SeatView;
use atomic_table::{Join, Play, Split};

pub(crate) struct Draw;

impl Play<u64, SeatView> for Draw {
    ghost then = { DrawTells };
}

// One more claim seat gets a seat of its own.
pub(crate) struct CutSeat;

impl Split<SeatView> for CutSeat {
    ghost left = { rest_view };

    ghost right = { part_view };
}

// A seat takes in what another knows.
pub(crate) struct GatherSeat;

impl Join<SeatView> for GatherSeat {
    ghost both = { both_views };

    ghost spent = { no_view };
}
