// A pass that is alone in its round, beside a ledger of it. Nobody comes between its steps, so each answer
// and each draw is known beforehand.
ghost use Rattle.std.specs.Prelude.{◌≡◌, ◌≤◌, IfOk, length};
ghost use Rattle.std.specs.List.Sorted.{IsStrictlyIncreasing};
ghost use Rattle.cells.specs.Tokens.{fresh_pass};
ghost use Rattle.hash_set.specs.Tests.{IsIdle, Keeps};
ghost use Rattle.step_core.specs.Fits.{IsWellFormed};
ghost use Rattle.step_core.specs.Plain.{HasPlainRows};

use super::*;
use ledger::Ledger;
use step_core::{exponent_of, live_keys};

mod ledger;
mod many;
mod rooms;
mod rows;

// A call on the set, or a resize of its table.
#[derive(Clone, Copy, Debug, PartialEq, Eq)]
enum Asked {
    Insert(u64),
    Remove(u64),
    Contains(u64),
    Grow,
    Shrink,
}

// What it came to.
#[derive(Clone, Copy, Debug, PartialEq, Eq)]
enum Came {
    Called(Option<Outcome>),
    Found(Option<bool>),
    Resized(Resized),
}

// What a call came to that changed the set, or didn't, with the width that it has.
fn done(width: u32) -> Came {
    Came::Called(changed(width))
}

fn same(width: u32) -> Came {
    Came::Called(unchanged(width))
}

// A call that was refused.
const FULL: Came = Came::Called(Some(Outcome::Full));

// Makes the call.
fn ask(round: &Round, pass: &mut Pass, asked: Asked) -> Came
    requires pass { IsIdle round.now pass.old }
    ensures { Keeps round.now pass.old pass.new }
{
    match asked {
        Asked::Insert(key) => Came::Called(inserted(round, pass, key)),
        Asked::Remove(key) => Came::Called(removed(round, pass, key)),
        Asked::Contains(key) => Came::Found(contained(round, pass, key)),
        Asked::Grow => Came::Resized(grow(round, pass)),
        Asked::Shrink => Came::Resized(shrink(round, pass)),
    }
}

// A round of one pass that begins with these keys, and the pass.
fn begin_with(alloc: Global, keys: &[u64], room: u64) -> Result<(Round, Pass), NoMemory>
    requires rising { IsStrictlyIncreasing keys.now }
    requires few { (length keys.now ≤ 5000) × (room ≤ 10000000) }
    ensures plan { IfOk result (λ r. r.0.plan.turns ≡ 0) }
    ensures seats { IfOk result (λ r. r.0.facts.seats ≡ 1) }
    ensures pass { IfOk result (λ r. r.1 ≡ fresh_pass r.0 0) }
{
    let (round, mut passes) = begin(alloc, 1, keys, 4, room)?;
    match passes.pop() {
        Some(pass) => Ok((round, pass)),
        None => unreachable!(),
    }
}

// What the calls of a round came to, and how it ended.
#[derive(Drop)]
struct Played {
    came: Vec<Came>,
    // How many calls its pass had begun, and where it was spent.
    calls: u64,
    spent: Option<u64>,
    words: Words,
}

// Makes the calls one behind the other.
fn ask_all(
    alloc: Global,
    round: &Round,
    pass: &mut Pass,
    asked: &[Asked],
) -> Result<Vec<Came>, NoMemory>
    requires pass { IsIdle round.now pass.old }
    ensures { Keeps round.now pass.old pass.new }
{
    let mut came = Vec::new(alloc);
    for call in asked {
        came.push(ask(round, pass, *call))?;
    }
    Ok(came)
}

// A round of one pass that begins with these keys, makes these calls and ends.
fn play(alloc: Global, keys: &[u64], room: u64, asked: &[Asked]) -> Result<Played, NoMemory>
    requires rising { IsStrictlyIncreasing keys.now }
    requires few { (length keys.now ≤ 5000) × (room ≤ 10000000) }
    ensures well_formed { IfOk result (λ played. IsWellFormed played.words) }
    ensures plain { IfOk result (λ played. HasPlainRows played.words) }
{
    let (round, mut pass) = begin_with(alloc, keys, room)?;
    let came = ask_all(alloc, &round, &mut pass, asked)?;
    let (calls, spent) = (pass.calls(), pass.spent());
    let words = ended_alone(alloc, round, pass)?;
    Ok(Played {
        came,
        calls,
        spent,
        words,
    })
}

// Whether the ledger tells all of that: what each call came to, where the pass was spent, the first word
// never drawn, the exponent and the keys.
fn tells(
    alloc: Global,
    ledger: &mut Ledger,
    asked: &[Asked],
    played: &Played,
) -> Result<bool, NoMemory>
    requires well_formed { IsWellFormed played.now.words }
    requires plain { HasPlainRows played.now.words }
{
    let mut told = Vec::new(alloc);
    for call in asked {
        told.push(ledger.ask(alloc, *call)?)?;
    }
    Ok(
        told.as_slice() == played.came.as_slice()
            && ledger.spent() == played.spent
            && ledger.ends_with(alloc, &played.words)?,
    )
}

// Whether the ledger of a round that begins with these keys tells what these calls come to.
fn agrees(alloc: Global, keys: &[u64], room: u64, asked: &[Asked]) -> Result<bool, NoMemory>
    requires rising { IsStrictlyIncreasing keys.now }
    requires few { (length keys.now ≤ 5000) × (room ≤ 10000000) }
{
    let played = play(alloc, keys, room, asked)?;
    let mut ledger = Ledger::open(alloc, keys, room)?;
    tells(alloc, &mut ledger, asked, &played)
}
