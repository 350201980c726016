use crate::rule::CounterSeat;
use std::marker::Model;

/// A worker's token of a counter. Whoever holds it takes claims with it.
#[derive(Drop)]
pub struct ClaimSeat {
    pub(crate) seat: CounterSeat,
    pub(crate) spent: Option<u64>,
}

impl Model for ClaimSeat {
    ghost use Rattle.claims.specs.Tokens.{SeatValue};

    ghost Value = { SeatValue };

    ghost use Rattle.claims.specs.Modeled.{seat_value, IsWhole};

    ghost view = { seat_value };

    ghost invariant = { IsWhole };
}
