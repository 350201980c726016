// Rounds whose tables are resized, and the words that they end with. The words expected are those of
// docs/FORMAT.md.
ghost use Rattle.std.specs.Prelude.{◌≡◌, ◌≤◌, IfOk, None, length};
ghost use Rattle.std.specs.List.Sorted.{IsStrictlyIncreasing};
ghost use Rattle.cells.specs.Ends.{AreAllPasses};
ghost use Rattle.cells.specs.Tokens.{IsPassOf, fresh_pass, fresh_passes};
ghost use Rattle.step_core.specs.Fits.{IsWellFormed};
ghost use Rattle.step_core.specs.Plain.{HasPlainRows};

use super::*;
use crate::resizing::Way;
use cells::{Pass, Plan, Round};
use fset::{Answered, Turn, turn};
use set_model::{Call, NoMemory};
use std::alloc::Global;
use std::test::Fail;
use step_core::{Layout, MAX_CALLS, Words, live_keys, opening, opening_words};

mod full;
mod lone;
mod races;
mod threads;

// A round that begins with these keys, and has so many words of room.
fn begin_round(
    alloc: Global,
    seats: u32,
    keys: &[u64],
    room: u64,
) -> Result<(Round, Vec<Pass>), NoMemory>
    requires seats { (1 ≤ seats) × (seats ≤ 4) }
    requires rising { IsStrictlyIncreasing keys.now }
    requires few { (length keys.now ≤ 1000) × (room ≤ 1000000) }
    ensures passes { IfOk result (λ r. r.1.items ≡ fresh_passes r.0) }
    ensures seats { IfOk result (λ r. r.0.facts.seats ≡ seats) }
{
    let plan = Plan {
        seats,
        fast: 1,
        turns: 1,
        room,
    };
    let layout = Layout {
        seats,
        cap: opening_words(seats, keys) + plan.room,
    };
    let words = opening(alloc, &layout, keys)?;
    Round::from_words(alloc, words, layout, plan)
}

// A round of one pass that begins with these keys, and the pass.
fn begin(alloc: Global, keys: &[u64], room: u64) -> Result<(Round, Pass), NoMemory>
    requires rising { IsStrictlyIncreasing keys.now }
    requires few { (length keys.now ≤ 1000) × (room ≤ 1000) }
    ensures pass { IfOk result (λ r. r.1 ≡ fresh_pass r.0 0) }
    ensures seats { IfOk result (λ r. r.0.facts.seats ≡ 1) }
{
    let (round, mut passes) = begin_round(alloc, 1, keys, room)?;
    match passes.pop() {
        Some(pass) => Ok((round, pass)),
        None => unreachable!(),
    }
}

// The words of a round as it ends.
fn ended(alloc: Global, round: Round, passes: Vec<Pass>) -> Result<Words, NoMemory>
    requires { AreAllPasses round passes.items }
    ensures well_formed { IfOk result IsWellFormed }
    ensures plain { IfOk result HasPlainRows }
{
    match round.into_words(alloc, passes) {
        Ok((words, _)) => Ok(words),
        Err((refused, _, _)) => Err(refused),
    }
}

// The same of a round of one pass.
fn ended_alone(alloc: Global, round: Round, pass: Pass) -> Result<Words, NoMemory>
    requires seats { round.facts.seats ≡ 1 }
    requires pass { IsPassOf round pass × (pass.view.number ≡ 0) }
    ensures well_formed { IfOk result IsWellFormed }
    ensures plain { IfOk result HasPlainRows }
{
    let mut passes = Vec::new(alloc);
    passes.push(pass)?;
    ended(alloc, round, passes)
}

// One insert that is tried once. The pass has no operation in flight.
fn inserted(round: &Round, pass: &mut Pass, key: u64) -> Option<Turn>
    requires pass { IsPassOf round.now pass.old }
    requires idle { pass.old.view.flight ≡ None }
    ensures pass { IsPassOf round.now pass.new × (pass.new.view.number ≡ pass.old.view.number) }
{
    if pass.calls() >= MAX_CALLS {
        return None;
    }
    round.begin_call(pass);
    Some(turn(round, pass, Call::Insert, key))
}

// An insert that changed the set.
fn changed(width: u32) -> Option<Turn> {
    Some(Turn::Done(Answered {
        changed: true,
        width,
    }))
}

// A resize that changed the table.
fn now_has(exponent: u32) -> Resized {
    Resized::Changed { exponent }
}

// The exponents go from 0 to 24, one at a time.
#[test]
fn each_way_ends_at_its_limit(rt: HostRuntime) -> Result<(), Fail> {
    let cases = [
        (0, Some(1), None),
        (1, Some(2), Some(0)),
        (23, Some(24), Some(22)),
        (24, None, Some(23)),
    ];
    for (exponent, greater, less) in cases {
        assert_eq!(rt; Way::Grow.next(exponent), greater, "{exponent}");
        assert_eq!(rt; Way::Shrink.next(exponent), less, "{exponent}");
    }
    Ok(())
}
