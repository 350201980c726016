ghost use Rattle.std.specs.Prelude.{◌≡◌};
ghost use Rattle.cells.specs.Sound.{IsSound};
ghost use Rattle.cells.specs.Tokens.{HasBegunCalls, IsPlanned};

use crate::Pass;
use crate::rule::RoundTable;
use std::marker::Model;
use step_core::{Layout, Plan};

/// The words of a round, which its passes step on.
#[derive(Drop)]
pub struct Round {
    pub(crate) table: RoundTable,
    pub(crate) layout: Layout,
    pub(crate) plan: Plan,
}

impl Model for Round {
    ghost use Rattle.cells.specs.Tokens.{RoundValue};

    ghost Value = { RoundValue };

    ghost use Rattle.cells.specs.Modeled.{round_value, IsRound};

    ghost view = { round_value };

    ghost invariant = { IsRound };
}

impl Round {
    /// The layout, as the round was given it.
    pub fn layout(&self) -> Layout
        ensures { result ≡ self.now.layout }
    {
        self.layout
    }

    /// The plan, as the round was given it.
    pub fn plan(&self) -> Plan
        ensures { result ≡ self.now.plan }
    {
        self.plan
    }

    /// Tells what holds of the round and of any pass at any time. Makes no step.
    pub fn sound(&self, pass: &Pass)
        ensures round { IsPlanned self.now }
        ensures view { IsSound pass.now.view }
        ensures serials { HasBegunCalls pass.now }
    {
        let _table = &self.table;
        let _seat = &pass.seat;
    }
}
