ghost use Rattle.std.specs.Prelude.{◌≡◌};
ghost use Rattle.rounds.specs.Halts.{number_of};

use crate::Pass;
use std::marker::Model;
use std::snapshot::Snapshot;

/// What a pass leaves behind as its round is halted. Contracts see the pass as it then was.
#[derive(Drop)]
pub struct Account {
    pub(crate) number: u32,
    pub(crate) calls: u64,
    pub(crate) spent: Option<u64>,
    pub(crate) pass: Snapshot<Pass>,
}

impl Model for Account {
    ghost use Rattle.cells.specs.Tokens.{PassValue};

    ghost Value = { PassValue };

    ghost use Rattle.rounds.specs.Modeled.{account_value, AccountsFor};

    ghost view = { account_value };

    ghost invariant = { AccountsFor };
}

impl Account {
    /// The number of the pass.
    pub(crate) fn number(&self) -> u32
        ensures { result ≡ number_of self.now }
    {
        self.number
    }

    /// The account of the pass.
    pub(crate) fn of(pass: &Pass) -> Self
        ensures { result ≡ pass.now }
    {
        Account {
            number: pass.number(),
            calls: pass.calls(),
            spent: pass.spent(),
            pass: Snapshot::of(pass),
        }
    }
}
