ghost use Rattle.std.specs.Prelude.{◌≡◌, ◌+◌, ◌≤◌, ◌∷◌, [], IfOk, length};
ghost use Rattle.std.specs.List.Sorted.{IsStrictlyIncreasing};
ghost use Rattle.cells.specs.Ends.{AreAllPasses};
ghost use Rattle.cells.specs.Tokens.{IsPassOf, fresh_pass, fresh_passes};
ghost use Rattle.step_core.specs.Fits.{IsWellFormed};
ghost use Rattle.step_core.specs.Plain.{HasPlainRows};
ghost use Rattle.step_core.specs.Openings.{opening_facts, opening_words};
ghost use Rattle.step_core.specs.Limits.{max_passes};

use super::*;
use set_model::NoMemory;
use std::alloc::Global;
use step_core::{Layout, Words, opening, opening_words};

mod draws;
mod ends;
mod lone;
mod notes;
mod swaps;

// A round that begins with these keys, and has so many words of room.
fn begin(alloc: Global, seats: u32, keys: &[u64], room: u64) -> Result<(Round, Vec<Pass>), NoMemory>
    requires seats { (1 ≤ seats) × (seats ≤ max_passes) }
    requires rising { IsStrictlyIncreasing keys.now }
    requires few { (length keys.now ≤ 100000) × (room ≤ 100000) }
    ensures passes { IfOk result (λ r. r.1.items ≡ fresh_passes r.0) }
    ensures facts { IfOk result
        (λ r. r.0.facts ≡ opening_facts seats (opening_words seats keys.now + room) keys.now) }
{
    let layout = Layout {
        seats,
        cap: opening_words(seats, keys) + room,
    };
    let plan = Plan {
        seats,
        fast: 1,
        turns: 0,
        room,
    };
    let words = opening(alloc, &layout, keys)?;
    Round::from_words(alloc, words, layout, plan)
}

// The words of a round as it ends. Where memory is refused once, round and passes are as they were,
// and it ends then.
fn ended(alloc: Global, round: Round, passes: Vec<Pass>) -> Result<Words, NoMemory>
    requires { AreAllPasses round passes.items }
    ensures well_formed { IfOk result IsWellFormed }
    ensures plain { IfOk result HasPlainRows }
{
    let (round, passes) = match round.into_words(alloc, passes) {
        Ok((words, _)) => return Ok(words),
        Err((NoMemory, round, passes)) => (round, passes),
    };
    match round.into_words(alloc, passes) {
        Ok((words, _)) => Ok(words),
        Err((refused, _, _)) => Err(refused),
    }
}

// A round of one pass.
fn begin_alone(alloc: Global, keys: &[u64], room: u64) -> Result<(Round, Pass), NoMemory>
    requires rising { IsStrictlyIncreasing keys.now }
    requires few { (length keys.now ≤ 100000) × (room ≤ 100000) }
    ensures seats { IfOk result (λ r. r.0.facts.seats ≡ 1) }
    ensures pass { IfOk result (λ r. r.1 ≡ fresh_pass r.0 0) }
{
    let (round, mut passes) = begin(alloc, 1, keys, room)?;
    match passes.pop() {
        Some(pass) => Ok((round, pass)),
        None => unreachable!(),
    }
}

// The words of such a round as it ends.
fn end_alone(alloc: Global, round: Round, pass: Pass) -> Result<Words, NoMemory>
    requires seats { round.facts.seats ≡ 1 }
    requires pass { IsPassOf round pass }
    requires number { pass.view.number ≡ 0 }
    ensures well_formed { IfOk result IsWellFormed }
    ensures plain { IfOk result HasPlainRows }
{
    let mut passes = Vec::new(alloc);
    passes.push(pass)?;
    ended(alloc, round, passes)
}

// A round without keys, with its two passes and so many words to draw.
fn begin_two(alloc: Global, room: u64) -> Result<(Round, Pass, Pass), NoMemory>
    requires few { room ≤ 100000 }
    ensures seats { IfOk result (λ r. r.0.facts.seats ≡ 2) }
    ensures first { IfOk result (λ r. r.1 ≡ fresh_pass r.0 0) }
    ensures second { IfOk result (λ r. r.2 ≡ fresh_pass r.0 1) }
{
    let (round, mut passes) = begin(alloc, 2, &[], room)?;
    let (Some(second), Some(first)) = (passes.pop(), passes.pop()) else {
        unreachable!()
    };
    Ok((round, first, second))
}

// The words of such a round as it ends.
fn end_two(alloc: Global, round: Round, first: Pass, second: Pass) -> Result<Words, NoMemory>
    requires seats { round.facts.seats ≡ 2 }
    requires first { IsPassOf round first × (first.view.number ≡ 0) }
    requires second { IsPassOf round second × (second.view.number ≡ 1) }
    ensures well_formed { IfOk result IsWellFormed }
    ensures plain { IfOk result HasPlainRows }
{
    let mut passes = Vec::new(alloc);
    passes.push(first)?;
    passes.push(second)?;
    ended(alloc, round, passes)
}
