// Rounds that are begun from an opening, and what they hold when they end.
ghost use Rattle.std.specs.Prelude.{◌≡◌, ◌≤◌, ◌<◌, [], None, IfOk, length};
ghost use Rattle.std.specs.List.Sorted.{IsStrictlyIncreasing};
ghost use Rattle.cells.specs.Ends.{AreAllPasses};
ghost use Rattle.cells.specs.Tokens.{IsPassOf, fresh_pass, fresh_passes};
ghost use Rattle.step_core.specs.Limits.{max_passes};
ghost use Rattle.step_core.specs.Plain.{HasPlainRows};
ghost use Rattle.step_core.specs.Fits.{IsWellFormed};

use super::*;
use cells::{Pass, Plan, Round};
use set_model::NoMemory;
use std::alloc::Global;
use std::test::Fail;
use step_core::{Layout, MAX_CALLS, Words, opening, opening_words};

mod resizing;
mod rows;
mod threads;

// A round that begins with these keys, whose calls make so many turns, with so many words of room.
fn begin(
    alloc: Global,
    seats: u32,
    keys: &[u64],
    fast: u32,
    room: u64,
) -> Result<(Round, Vec<Pass>), NoMemory>
    requires seats { (1 ≤ seats) × (seats ≤ max_passes) }
    requires rising { IsStrictlyIncreasing keys.now }
    requires few { (length keys.now ≤ 5000) × (room ≤ 10000000) }
    requires fast { (1 ≤ fast) × (fast ≤ 1000000) }
    ensures plan { IfOk result (λ r. r.0.plan.turns ≡ 0) }
    ensures seats { IfOk result (λ r. r.0.facts.seats ≡ seats) }
    ensures passes { IfOk result (λ r. r.1.items ≡ fresh_passes r.0) }
{
    let plan = Plan {
        seats,
        fast,
        turns: 0,
        room,
    };
    let layout = Layout {
        seats,
        cap: opening_words(seats, keys) + room,
    };
    let words = opening(alloc, &layout, keys)?;
    Round::from_words(alloc, words, layout, plan)
}

// A round of one pass without keys.
fn begin_alone(alloc: Global, room: u64) -> Result<(Round, Pass), NoMemory>
    requires few { room ≤ 1000 }
    ensures plan { IfOk result (λ r. r.0.plan.turns ≡ 0) }
    ensures seats { IfOk result (λ r. r.0.facts.seats ≡ 1) }
    ensures pass { IfOk result (λ r. r.1 ≡ fresh_pass r.0 0) }
{
    let (round, mut passes) = begin(alloc, 1, &[], 4, room)?;
    match passes.pop() {
        Some(pass) => Ok((round, pass)),
        None => unreachable!(),
    }
}

// A round of two passes without keys.
fn begin_two(alloc: Global, room: u64) -> Result<(Round, Pass, Pass), NoMemory>
    requires few { room ≤ 1000 }
    ensures plan { IfOk result (λ r. r.0.plan.turns ≡ 0) }
    ensures seats { IfOk result (λ r. r.0.facts.seats ≡ 2) }
    ensures first { IfOk result (λ r. r.1 ≡ fresh_pass r.0 0) }
    ensures second { IfOk result (λ r. r.2 ≡ fresh_pass r.0 1) }
{
    let (round, mut passes) = begin(alloc, 2, &[], 4, room)?;
    let (Some(second), Some(first)) = (passes.pop(), passes.pop()) else {
        unreachable!()
    };
    Ok((round, first, second))
}

// The words of a round as it ends.
fn ended(alloc: Global, round: Round, passes: Vec<Pass>) -> Result<Words, NoMemory>
    requires { AreAllPasses round passes.items }
    ensures well_formed { IfOk result IsWellFormed }
    ensures plain { IfOk result HasPlainRows }
{
    match round.into_words(alloc, passes) {
        Ok((words, _)) => Ok(words),
        Err((refused, _, _)) => Err(refused),
    }
}

// The same of a round of one pass.
fn ended_alone(alloc: Global, round: Round, pass: Pass) -> Result<Words, NoMemory>
    requires seats { round.facts.seats ≡ 1 }
    requires pass { IsPassOf round pass × (pass.view.number ≡ 0) }
    ensures well_formed { IfOk result IsWellFormed }
    ensures plain { IfOk result HasPlainRows }
{
    let mut passes = Vec::new(alloc);
    passes.push(pass)?;
    ended(alloc, round, passes)
}

// A call on a pass that has begun fewer calls than it may.
fn inserted(round: &Round, pass: &mut Pass, key: u64) -> Option<Outcome>
    requires pass { IsPassOf round.now pass.old }
    requires idle { pass.old.view.flight ≡ None }
    requires plan { round.now.plan.turns ≡ 0 }
    ensures pass { IsPassOf round.now pass.new × (pass.new.view.number ≡ pass.old.view.number) }
    ensures idle { pass.new.view.flight ≡ None }
{
    if pass.calls() >= MAX_CALLS {
        return None;
    }
    Some(insert(round, pass, key))
}

fn removed(round: &Round, pass: &mut Pass, key: u64) -> Option<Outcome>
    requires pass { IsPassOf round.now pass.old }
    requires idle { pass.old.view.flight ≡ None }
    requires plan { round.now.plan.turns ≡ 0 }
    ensures pass { IsPassOf round.now pass.new × (pass.new.view.number ≡ pass.old.view.number) }
    ensures idle { pass.new.view.flight ≡ None }
{
    if pass.calls() >= MAX_CALLS {
        return None;
    }
    Some(remove(round, pass, key))
}

fn contained(round: &Round, pass: &mut Pass, key: u64) -> Option<bool>
    requires pass { IsPassOf round.now pass.old }
    requires idle { pass.old.view.flight ≡ None }
    ensures pass { IsPassOf round.now pass.new × (pass.new.view.number ≡ pass.old.view.number) }
    ensures idle { pass.new.view.flight ≡ None }
{
    if pass.calls() >= MAX_CALLS {
        return None;
    }
    Some(contains(round, pass, key))
}

// The outcome of a call that changed the set, or didn't.
fn changed(width: u32) -> Option<Outcome> {
    Some(Outcome::Done(Answered {
        changed: true,
        width,
    }))
}

fn unchanged(width: u32) -> Option<Outcome> {
    Some(Outcome::Done(Answered {
        changed: false,
        width,
    }))
}
