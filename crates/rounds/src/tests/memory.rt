// Calls that are refused memory once and tried again with what came back. With an allocation that
// fails (`rt try --test --fail-alloc N`) one of them is; without, each succeeds at once.
ghost use Rattle.std.specs.Prelude.{◌≡◌, ◌≤◌, IfOk, length};
ghost use Rattle.std.specs.List.Sorted.{IsStrictlyIncreasing};
ghost use Rattle.cells.specs.Ends.{AreAllPasses};
ghost use Rattle.cells.specs.Tokens.{fresh_pass};
ghost use Rattle.rounds.specs.Halts.{AreAtRest};

use super::*;

// The round is halted at the second try at the latest.
fn halted(alloc: Global, round: Round, passes: Vec<Pass>) -> Result<Halted, NoMemory>
    requires passes { AreAllPasses round passes.items }
    requires at_rest { AreAtRest passes.items }
    ensures { IfOk result (λ halted. halted.round ≡ round) }
{
    let (round, passes) = match halt_round(alloc, round, passes) {
        Ok(halted) => return Ok(halted),
        Err((_, round, passes)) => (round, passes),
    };
    match halt_round(alloc, round, passes) {
        Ok(halted) => Ok(halted),
        Err((refused, _, _)) => Err(refused),
    }
}

// So is its closing read.
fn closing_of(alloc: Global, halted: Halted) -> Result<Closing, NoMemory>
    ensures { IfOk result (λ closing. length closing.accounts ≡ halted.round.facts.seats) }
{
    match end_round(alloc, halted) {
        Ok(closing) => Ok(closing),
        Err((_, halted)) => ended(alloc, halted),
    }
}

// And so is the round started.
fn started(alloc: Global, keys: &[u64]) -> Result<(Round, Pass), OpenFault>
    requires rising { IsStrictlyIncreasing keys.now }
    requires few { length keys.now ≤ 100 }
    ensures plan { IfOk result (λ r. r.0.plan.turns ≡ 0) }
    ensures seats { IfOk result (λ r. r.0.facts.seats ≡ 1) }
    ensures pass { IfOk result (λ r. r.1 ≡ fresh_pass r.0 0) }
{
    match begin_alone(alloc, keys, 100) {
        Ok(begun) => Ok(begun),
        Err(_) => begin_alone(alloc, keys, 100),
    }
}

#[test]
fn what_is_refused_memory_can_be_tried_again(rt: HostRuntime) -> Result<(), Fail> {
    let (round, mut pass) = started(rt.alloc(), &[1, 2, 3, 4, 5])?;
    inserted(&round, &mut pass, 9);
    let mut passes = Vec::new(rt.alloc());
    if let Err(refused) = passes.reserve(1) {
        passes.reserve(1)?;
    }
    passes.push(pass)?;
    let closing = closing_of(rt.alloc(), halted(rt.alloc(), round, passes)?)?;
    assert_eq!(rt; closing.keys(), [1, 2, 3, 4, 5, 9].as_slice());
    assert_eq!(rt; (closing.calls(0), closing.next()), (1, 26));
    Ok(())
}
