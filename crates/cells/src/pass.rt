ghost use Rattle.std.specs.Prelude.{◌≡◌};

use crate::rule::RoundSeat;
use std::marker::Model;

/// One caller's token in a round. Whoever holds it makes its steps.
#[derive(Drop)]
pub struct Pass {
    pub(crate) seat: RoundSeat,
    pub(crate) number: u32,
    pub(crate) spent: Option<u64>,
    pub(crate) calls: u64,
}

impl Model for Pass {
    ghost use Rattle.cells.specs.Tokens.{PassValue};

    ghost Value = { PassValue };

    ghost use Rattle.cells.specs.Modeled.{pass_value, IsWhole};

    ghost view = { pass_value };

    ghost invariant = { IsWhole };
}

impl Pass {
    /// Its number, from 0.
    pub fn number(&self) -> u32
        ensures { result ≡ self.now.view.number }
    {
        self.number
    }

    /// How many calls it has begun in its round.
    pub fn calls(&self) -> u64
        ensures { result ≡ self.now.calls }
    {
        self.calls
    }

    /// The first word never drawn that its draw past the end found, if it made one.
    pub fn spent(&self) -> Option<u64>
        ensures { result ≡ self.now.view.spent }
    {
        self.spent
    }
}
