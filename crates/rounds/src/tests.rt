// Rounds from their start to their end, with calls of the set between.
ghost use Rattle.std.specs.Prelude.{◌≡◌, ◌≤◌, None, IfOk, length};
ghost use Rattle.std.specs.List.Sorted.{IsStrictlyIncreasing};
ghost use Rattle.cells.specs.Ends.{AreAllPasses};
ghost use Rattle.cells.specs.Tokens.{IsPassOf, fresh_pass, fresh_passes};
ghost use Rattle.rounds.specs.Halts.{AreAtRest};

use super::*;
use fset::{Answered, Outcome};
use hash_set::{contains, insert, remove};
use set_model::NoMemory;
use std::alloc::Global;
use std::test::Fail;
use step_core::MAX_CALLS;

mod calling;
mod large;
mod memory;
mod rows;

// The plan of a round whose calls are tried so often, with so many words of room.
fn plan_of(seats: u32, fast: u32, room: u64) -> Plan
    ensures { result ≡ record { seats = seats; fast = fast; turns = 0; room = room } }
{
    Plan {
        seats,
        fast,
        turns: 0,
        room,
    }
}

// A round of one pass.
fn begin_alone(alloc: Global, keys: &[u64], room: u64) -> Result<(Round, Pass), OpenFault>
    requires rising { IsStrictlyIncreasing keys.now }
    requires few { (length keys.now ≤ 100) × (room ≤ 1000) }
    ensures plan { IfOk result (λ r. r.0.plan.turns ≡ 0) }
    ensures seats { IfOk result (λ r. r.0.facts.seats ≡ 1) }
    ensures pass { IfOk result (λ r. r.1 ≡ fresh_pass r.0 0) }
{
    let (round, mut passes) = start_round(alloc, keys, plan_of(1, 4, room))?;
    match passes.pop() {
        Some(pass) => Ok((round, pass)),
        None => unreachable!(),
    }
}

// The closing of a round.
fn closed(alloc: Global, round: Round, passes: Vec<Pass>) -> Result<Closing, NoMemory>
    requires passes { AreAllPasses round passes.items }
    requires at_rest { AreAtRest passes.items }
    ensures seats { IfOk result (λ closing. length closing.accounts ≡ round.facts.seats) }
{
    match halt_round(alloc, round, passes) {
        Ok(halted) => ended(alloc, halted),
        Err((refused, _, _)) => Err(refused),
    }
}

// The closing of a halted round.
fn ended(alloc: Global, halted: Halted) -> Result<Closing, NoMemory>
    ensures seats { IfOk result (λ closing. length closing.accounts ≡ halted.round.facts.seats) }
{
    match end_round(alloc, halted) {
        Ok(closing) => Ok(closing),
        Err((refused, _)) => Err(refused),
    }
}

// The closing of a round of one pass.
fn closed_alone(alloc: Global, round: Round, pass: Pass) -> Result<Closing, NoMemory>
    requires seats { round.facts.seats ≡ 1 }
    requires pass { IsPassOf round pass × (pass.view.number ≡ 0) }
    requires idle { pass.view.flight ≡ None }
    ensures seats { IfOk result (λ closing. length closing.accounts ≡ 1) }
{
    let mut passes = Vec::new(alloc);
    passes.push(pass)?;
    closed(alloc, round, passes)
}

// An insert on a pass that has begun fewer calls than it may.
fn inserted(round: &Round, pass: &mut Pass, key: u64) -> Option<Outcome>
    requires pass { IsPassOf round.now pass.old }
    requires idle { pass.old.view.flight ≡ None }
    requires plan { round.now.plan.turns ≡ 0 }
    ensures pass { IsPassOf round.now pass.new × (pass.new.view.number ≡ pass.old.view.number) }
    ensures idle { pass.new.view.flight ≡ None }
{
    if pass.calls() >= MAX_CALLS {
        return None;
    }
    Some(insert(round, pass, key))
}

// The same of a remove.
fn removed(round: &Round, pass: &mut Pass, key: u64) -> Option<Outcome>
    requires pass { IsPassOf round.now pass.old }
    requires idle { pass.old.view.flight ≡ None }
    requires plan { round.now.plan.turns ≡ 0 }
    ensures pass { IsPassOf round.now pass.new × (pass.new.view.number ≡ pass.old.view.number) }
    ensures idle { pass.new.view.flight ≡ None }
{
    if pass.calls() >= MAX_CALLS {
        return None;
    }
    Some(remove(round, pass, key))
}

// The outcome of a call that changed nothing.
fn unchanged(width: u32) -> Option<Outcome> {
    Some(Outcome::Done(Answered {
        changed: false,
        width,
    }))
}
