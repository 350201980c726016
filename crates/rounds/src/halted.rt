// How a round is halted.
ghost use Rattle.std.specs.Prelude.{◌≡◌, IfOk, IfErr};
ghost use Rattle.cells.specs.Ends.{AreAllPasses};
ghost use Rattle.rounds.specs.Halts.{AreAtRest, ByNumber, Halts};

use crate::{Account, Front, Pass, Round};
use set_model::NoMemory;
use std::alloc::Global;
use std::marker::Model;
use std::snapshot::Snapshot;
use step_core::Words;

/// A round that was stopped: its words, its whole history, and what each pass left behind.
#[derive(Drop)]
pub struct Halted {
    pub(crate) round: Snapshot<Round>,
    pub(crate) words: Words,
    pub(crate) front: Front,
    pub(crate) accounts: Vec<Account>,
}

impl Model for Halted {
    ghost use Rattle.rounds.specs.Halts.{HaltedValue};

    ghost Value = { HaltedValue };

    ghost use Rattle.rounds.specs.Modeled.{halted_value, IsHalted};

    ghost view = { halted_value };

    ghost invariant = { IsHalted };
}

/// Stops the round, once no thread holds it or a pass of it any more. The passes must be all of the
/// round, each once, in any order, and none may have an operation in flight. Where memory is refused,
/// round and passes come back as they were. For a moment the round's words stand twice in memory.
pub fn halt_round(
    alloc: Global,
    round: Round,
    passes: Vec<Pass>,
) -> Result<Halted, (NoMemory, Round, Vec<Pass>)>
    requires passes { AreAllPasses round passes.items }
    requires at_rest { AreAtRest passes.items }
    ensures answer { IfOk result (Halts round passes.items) }
    ensures refused { IfErr result (λ back. (back.1 ≡ round) × (back.2.items ≡ passes.items)) }
{
    let Ok(accounts) = accounts_of(alloc, passes.as_slice()) else {
        return Err((NoMemory, round, passes));
    };
    let halted = Snapshot::of(&round);
    match round.into_words(alloc, passes) {
        Ok((words, front)) => Ok(Halted {
            round: halted,
            words,
            front,
            accounts,
        }),
        Err(back) => Err(back),
    }
}

// The accounts of the passes, by their numbers.
fn accounts_of(alloc: Global, passes: &[Pass]) -> Result<Vec<Account>, NoMemory>
    ensures { IfOk result (λ accounts. ByNumber passes.now accounts.items) }
{
    let mut accounts = Vec::with_capacity(alloc, passes.len())?;
    for pass in passes {
        accounts.push(Account::of(pass))?;
    }
    accounts.sort_unstable_by_key(|account| account.number());
    Ok(accounts)
}
