// Passes that hand each other notes.
ghost use Rattle.std.specs.Prelude.{◌≡◌};
ghost use mathlib.Core.List.{IsPrefix};
ghost use Rattle.cells.specs.Tokens.{IsPassOf, IsSamePass};

use super::{begin_two, end_two};
use crate::*;
use std::test::Fail;
use std::thread;

// A pass that drew a block, where that begins, and how far the pass had seen the history.
#[derive(Drop)]
struct Turn {
    pass: Pass,
    at: Option<u64>,
    note: Note,
}

// Loads the head, draws a block of one word, writes the value into it, and makes a note.
fn take_turn(round: &Round, mut pass: Pass, value: u64) -> Turn
    requires { IsPassOf round.now pass }
    ensures pass { IsSamePass pass result.pass }
    ensures table { result.note.table ≡ round.now.table }
    ensures front { result.note.front ≡ result.pass.view.front }
{
    round.load_head(&mut pass);
    let at = match round.draw(&mut pass, 1) {
        Ok(mut block) => {
            round.write(&mut pass, &mut block, 0, value);
            Some(block.at())
        }
        Err(Full) => None,
    };
    let note = round.note(&mut pass);
    Turn { pass, at, note }
}

// The pass learns from the note: it has then seen all that both had.
fn learn_from(round: &Round, mut pass: Pass, note: Note) -> Pass
    requires pass { IsPassOf round.now pass }
    requires note { note.table ≡ round.now.table }
    ensures pass { IsSamePass pass result }
    ensures own { IsPrefix pass.view.front result.view.front }
    ensures other { IsPrefix note.front result.view.front }
{
    round.learn(&mut pass, note);
    pass
}

// The last words, where the passes' blocks begin there.
fn last_words(first: Option<u64>, second: Option<u64>) -> [u64; 13] {
    match (first, second) {
        (Some(11), Some(12)) => [5, 13, 0, 0, 0, 0, 0, 16, 0, 0, 0, 7, 8],
        (Some(12), Some(11)) => [5, 13, 0, 0, 0, 0, 0, 16, 0, 0, 0, 8, 7],
        _ => [0; 13],
    }
}

#[test]
fn two_passes_learn_from_each_other(rt: HostRuntime) -> Result<(), Fail> {
    let (round, first, second) = begin_two(rt.alloc(), 2)?;
    let first = take_turn(&round, first, 7);
    let second = take_turn(&round, second, 8);
    let one = learn_from(&round, first.pass, second.note);
    let other = learn_from(&round, second.pass, first.note);
    let words = end_two(rt.alloc(), round, one, other)?;
    assert_eq!(rt;
        words.as_slice(),
        last_words(first.at, second.at).as_slice()
    );
    Ok(())
}

// Passes and notes go from thread to thread. Whichever pass draws first, each block has its value.
#[test]
fn two_threads_learn_from_each_other(rt: HostRuntime) -> Result<(), Fail> {
    let (round, first, second) = begin_two(rt.alloc(), 2)?;
    let shared = &round;
    let (first, second) = thread::join(
        &rt,
        move || take_turn(shared, first, 7),
        move || take_turn(shared, second, 8),
    );
    let (one, from_one) = (first.pass, first.note);
    let (other, from_other) = (second.pass, second.note);
    let (one, other) = thread::join(
        &rt,
        move || learn_from(shared, one, from_other),
        move || learn_from(shared, other, from_one),
    );
    let words = end_two(rt.alloc(), round, one, other)?;
    assert_eq!(rt;
        words.as_slice(),
        last_words(first.at, second.at).as_slice()
    );
    Ok(())
}
