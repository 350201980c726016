// Rounds without room for all that a resize draws. As in `lone`, the row of 1 is at 10, and the first growth
// leaves NEXT at 18.
ghost use Rattle.std.specs.Prelude.{◌≡◌, ◌≤◌, IfOk};
ghost use Rattle.cells.specs.Tokens.{IsPassOf};

use super::*;

// A round in which 1 was inserted, with so many words of room and its pass.
fn begin_with_one(alloc: Global, room: u64) -> Result<(Round, Pass), NoMemory>
    requires few { room ≤ 1000 }
    ensures pass { IfOk result (λ r. IsPassOf r.0 r.1 × (r.1.view.number ≡ 0)) }
    ensures seats { IfOk result (λ r. r.0.facts.seats ≡ 1) }
{
    let (round, mut pass) = begin(alloc, &[], room)?;
    inserted(&round, &mut pass, 1);
    Ok((round, pass))
}

// 17 words: the generation of two buckets, at 14, lacks one. The table stays, and the pass goes on.
#[test]
fn a_growth_is_full_where_its_generation_does_not_fit(rt: HostRuntime) -> Result<(), Fail> {
    let (round, mut pass) = begin_with_one(rt.alloc(), 7)?;
    assert_eq!(rt; grow(&round, &mut pass), Resized::Full);
    assert_eq!(rt; pass.spent(), Some(14));
    assert_eq!(rt; grow(&round, &mut pass), Resized::Full);
    assert_eq!(rt; shrink(&round, &mut pass), Resized::AtLimit);
    assert_eq!(rt; exponent(&round, &mut pass), 0);
    assert_eq!(rt; pass.spent(), Some(14));
    let words = ended_alone(rt.alloc(), round, pass)?;
    assert_eq!(rt; words.as_slice().get(0..2), Some([4, 18].as_slice()));
    assert_eq!(rt; words.as_slice().get(4..7), Some([0, 0, 20].as_slice()));
    assert_eq!(rt; live_keys(rt.alloc(), &words)?.as_slice(), [1].as_slice());
    Ok(())
}

// 24 words: the second growth fills the first bucket with a row at 18, and lacks a word for that of the
// second, at 21. The bucket stays filled, the table has its key, and no later growth draws.
#[test]
fn a_growth_is_full_in_the_middle_of_filling(rt: HostRuntime) -> Result<(), Fail> {
    let (round, mut pass) = begin_with_one(rt.alloc(), 14)?;
    assert_eq!(rt; grow(&round, &mut pass), now_has(1));
    assert_eq!(rt; grow(&round, &mut pass), Resized::Full);
    assert_eq!(rt; pass.spent(), Some(21));
    assert_eq!(rt; grow(&round, &mut pass), Resized::Full);
    assert_eq!(rt; shrink(&round, &mut pass), Resized::Full);
    assert_eq!(rt; (exponent(&round, &mut pass), pass.spent()), (1, Some(21)));
    let words = ended_alone(rt.alloc(), round, pass)?;
    assert_eq!(rt; words.as_slice().get(0..2), Some([14, 25].as_slice()));
    let behind = [1, 4, 36, 0, 0, 0, 0, 0, 0, 0];
    assert_eq!(rt; words.as_slice().get(14..24), Some(behind.as_slice()));
    assert_eq!(rt; live_keys(rt.alloc(), &words)?.as_slice(), [1].as_slice());
    Ok(())
}

// 30 words: both buckets are filled, and the generation of four, at 25, lacks a word.
#[test]
fn a_growth_is_full_behind_its_last_bucket(rt: HostRuntime) -> Result<(), Fail> {
    let (round, mut pass) = begin_with_one(rt.alloc(), 20)?;
    assert_eq!(rt; grow(&round, &mut pass), now_has(1));
    assert_eq!(rt; grow(&round, &mut pass), Resized::Full);
    assert_eq!(rt; pass.spent(), Some(25));
    assert_eq!(rt; grow(&round, &mut pass), Resized::Full);
    assert_eq!(rt; (exponent(&round, &mut pass), pass.spent()), (1, Some(25)));
    let words = ended_alone(rt.alloc(), round, pass)?;
    assert_eq!(rt; words.as_slice().get(0..2), Some([14, 31].as_slice()));
    assert_eq!(rt;
        words.as_slice().get(14..18),
        Some([1, 4, 36, 42].as_slice())
    );
    assert_eq!(rt; live_keys(rt.alloc(), &words)?.as_slice(), [1].as_slice());
    Ok(())
}

// With 31 it fits.
#[test]
fn a_generation_that_fits_exactly_becomes_the_head(rt: HostRuntime) -> Result<(), Fail> {
    let (round, mut pass) = begin_with_one(rt.alloc(), 21)?;
    assert_eq!(rt; grow(&round, &mut pass), now_has(1));
    assert_eq!(rt; grow(&round, &mut pass), now_has(2));
    assert_eq!(rt; pass.spent(), None);
    let words = ended_alone(rt.alloc(), round, pass)?;
    assert_eq!(rt; words.as_slice().get(0..2), Some([25, 31].as_slice()));
    let generation = [2, 14, 0, 0, 0, 0];
    assert_eq!(rt; words.as_slice().get(25..31), Some(generation.as_slice()));
    Ok(())
}
