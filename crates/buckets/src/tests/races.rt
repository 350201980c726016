// Two passes that resize one table.
ghost use Rattle.std.specs.Prelude.{◌≡◌, IfOk, IfSome};
ghost use Rattle.cells.specs.HeadSwaps.{MaySwapHead};
ghost use Rattle.cells.specs.Tokens.{IsPassOf, IsSamePass, fresh_pass};
ghost use Rattle.step_core.specs.Fits.{IsWellFormed};
ghost use Rattle.step_core.specs.Plain.{HasPlainRows};

use super::*;
use crate::resizing::{build_next, fill_head, load_head};
use cells::Block;

// A round that begins with 1, with its two passes.
fn begin_two(alloc: Global) -> Result<(Round, Pass, Pass), NoMemory>
    ensures seats { IfOk result (λ r. r.0.facts.seats ≡ 2) }
    ensures first { IfOk result (λ r. r.1 ≡ fresh_pass r.0 0) }
    ensures second { IfOk result (λ r. r.2 ≡ fresh_pass r.0 1) }
{
    let (round, mut passes) = begin_round(alloc, 2, &[1], 200)?;
    let (Some(second), Some(first)) = (passes.pop(), passes.pop()) else {
        unreachable!()
    };
    Ok((round, first, second))
}

// The words that such a round ends with.
fn ended_two(alloc: Global, round: Round, first: Pass, second: Pass) -> Result<Words, NoMemory>
    requires seats { round.facts.seats ≡ 2 }
    requires first { IsPassOf round first × (first.view.number ≡ 0) }
    requires second { IsPassOf round second × (second.view.number ≡ 1) }
    ensures well_formed { IfOk result IsWellFormed }
    ensures plain { IfOk result HasPlainRows }
{
    let mut passes = Vec::new(alloc);
    passes.push(first)?;
    passes.push(second)?;
    ended(alloc, round, passes)
}

// A growth up to its exchange.
#[derive(Drop)]
struct Ready {
    head: u64,
    block: Block,
}

// The steps of a growth before its exchange. There is none where no table is greater, or no room is.
fn ready_to_grow(round: &Round, pass: &mut Pass) -> Option<Ready>
    requires pass { IsPassOf round.now pass.old }
    ensures pass { IsSamePass pass.old pass.new }
    ensures may { IfSome result (λ ready. MaySwapHead pass.new.view ready.head ready.block.at) }
{
    let head = load_head(round, pass);
    round.sound(pass);
    let Some(exponent) = Way::Grow.next(head.exponent) else {
        return None;
    };
    let Ok(()) = fill_head(round, pass, head) else {
        return None;
    };
    round.sound(pass);
    let Ok(block) = build_next(round, pass, head.at, exponent) else {
        return None;
    };
    round.sound(pass);
    Some(Ready {
        head: head.at,
        block,
    })
}

// The opening has HEAD 5 and NEXT 12. The first pass has written its generation, at 12, when the second
// makes a whole growth, with a generation at 16. So the first one's exchange finds 16; what it wrote
// stays, and is no part of the table. It can grow that afterwards.
#[test]
fn a_growth_is_lost_to_another_pass(rt: HostRuntime) -> Result<(), Fail> {
    let (round, mut first, mut second) = begin_two(rt.alloc())?;
    let Some(ready) = ready_to_grow(&round, &mut first) else {
        panic!(rt; "the table can grow, and there is room")
    };
    assert_eq!(rt; (ready.head, ready.block.at()), (5, 12));
    assert_eq!(rt; grow(&round, &mut second), now_has(1));
    let Err(lost) = round.swap_head(&mut first, ready.head, ready.block) else {
        panic!(rt; "the second pass has exchanged the head")
    };
    assert_eq!(rt; (lost.found, lost.block.at()), (16, 12));
    assert_eq!(rt; exponent(&round, &mut first), 1);
    let words = ended_two(rt.alloc(), round, first, second)?;
    assert_eq!(rt; words.as_slice().get(0..2), Some([16, 20].as_slice()));
    let behind = [1, 5, 0, 0, 1, 5, 0, 0];
    assert_eq!(rt; words.as_slice().get(12..20), Some(behind.as_slice()));
    assert_eq!(rt; live_keys(rt.alloc(), &words)?.as_slice(), [1].as_slice());
    Ok(())
}
