ghost use Rattle.std.specs.Prelude.{◌≡◌, ◌∷◌, [], replicate, IfOk};
ghost use Rattle.step_core.specs.Fits.{IsWellFormed};
ghost use Rattle.step_core.specs.Plain.{HasPlainRows};

use super::*;
use set_model::NoMemory;
use std::alloc::Global;
use std::test::Fail;

#[tactic(auto, unfolding(crate::specs::Openings::exponent_from, crate::specs::Openings::rows_of))]
fn open_for_one(alloc: Global) -> Result<Words, NoMemory>
    ensures words { IfOk result (λ words. words ≡ 4 ∷ 10 ∷ 0 ∷ 0 ∷ 0 ∷ 0 ∷ 14 ∷ 0 ∷ 0 ∷ 0
        ∷ replicate 10 0) }
    ensures well_formed { IfOk result IsWellFormed }
    ensures plain { IfOk result HasPlainRows }
{
    opening(alloc, &Layout { seats: 1, cap: 20 }, &[])
}

#[tactic(auto, unfolding(crate::specs::Openings::exponent_from, crate::specs::Openings::rows_of))]
fn open_with_five(alloc: Global) -> Result<Words, NoMemory>
    ensures words { IfOk result (λ words. words ≡ 4 ∷ 19 ∷ 0 ∷ 0 ∷ 1 ∷ 0 ∷ 16 ∷ 26
        ∷ 2 ∷ 0 ∷ 0 ∷ 2 ∷ 3 ∷ 3 ∷ 0 ∷ 0 ∷ 1 ∷ 4 ∷ 5 ∷ 0 ∷ []) }
    ensures well_formed { IfOk result IsWellFormed }
    ensures plain { IfOk result HasPlainRows }
{
    opening(alloc, &Layout { seats: 1, cap: 20 }, &[1, 2, 3, 4, 5])
}

// The first words of docs/FORMAT.md's example. An opening whose NEXT is one short would fail here
// too.
#[test]
fn an_opening_without_keys_has_no_members(rt: HostRuntime) -> Result<(), Fail> {
    let words = open_for_one(rt.alloc())?;
    assert_eq!(rt; words.len(), 20);
    assert_eq!(rt; words.word(0), 4);
    assert_eq!(rt; words.word(1), 10);
    assert_eq!(rt; words.word(6), 14);
    assert_eq!(rt; live_keys(rt.alloc(), &words)?.as_slice(), [].as_slice());
    Ok(())
}

// The example of docs/FORMAT.md, word by word: the keys 2 and 3 are in bucket 0, the others in
// bucket 1. An opening with another exponent, or with a key in the next bucket, would fail here
// too.
#[test]
fn an_opening_with_five_keys_has_two_rows(rt: HostRuntime) -> Result<(), Fail> {
    assert_eq!(rt; opening_words(1, &[1, 2, 3, 4, 5]), 19);
    let words = open_with_five(rt.alloc())?;
    let expected = [
        4, 19, 0, 0, 1, 0, 16, 26, 2, 0, 0, 2, 3, 3, 0, 0, 1, 4, 5, 0,
    ];
    for at in 0..20 {
        assert_eq!(rt; words.word(at), expected[at as usize], "word {at}");
    }
    assert_eq!(rt; exponent_of(&words), 1);
    assert_eq!(rt;
        live_keys(rt.alloc(), &words)?.as_slice(),
        [1, 2, 3, 4, 5].as_slice()
    );
    Ok(())
}

// The insert of docs/STEPS.md, step by step, and the words that docs/FORMAT.md has after it. A step
// that changes another word too would fail here.
#[test]
fn an_insert_is_a_draw_writes_and_a_swap(rt: HostRuntime) -> Result<(), Fail> {
    let mut words = open_for_one(rt.alloc())?;
    assert_eq!(rt; step(&mut words, Step::LoadHead), 4);
    assert_eq!(rt; step(&mut words, Step::LoadBucket { at: 6 }), 14);
    assert_eq!(rt; step(&mut words, Step::LoadSealed { at: 7 }), 0);
    assert_eq!(rt; step(&mut words, Step::Draw { len: 4 }), 10);
    assert_eq!(rt; step(&mut words, Step::Write { at: 10, value: 1 }), 1);
    assert_eq!(rt; step(&mut words, Step::Write { at: 11, value: 0 }), 0);
    assert_eq!(rt; step(&mut words, Step::Write { at: 12, value: 0 }), 0);
    assert_eq!(rt; step(&mut words, Step::Write { at: 13, value: 1 }), 1);
    let swap = Step::SwapRow {
        at: 6,
        old: 14,
        new: 20,
    };
    assert_eq!(rt; step(&mut words, swap), 14);
    let expected = [4, 14, 0, 0, 0, 0, 20, 0, 0, 0, 1, 0, 0, 1, 0, 0, 0, 0, 0, 0];
    assert_eq!(rt; words.as_slice(), expected.as_slice());
    Ok(())
}

// Each kind of step once, with the number that it gives and the word that it leaves.
#[test]
fn each_kind_of_step_does_what_its_row_says(rt: HostRuntime) -> Result<(), Fail> {
    let mut words = open_for_one(rt.alloc())?;
    assert_eq!(rt; step(&mut words, Step::LoadHead), 4);
    assert_eq!(rt; step(&mut words, Step::LoadSealed { at: 5 }), 0);
    assert_eq!(rt; step(&mut words, Step::LoadBucket { at: 6 }), 14);
    assert_eq!(rt; step(&mut words, Step::Draw { len: 4 }), 10);
    assert_eq!(rt; words.word(1), 14);
    assert_eq!(rt; step(&mut words, Step::Write { at: 13, value: 9 }), 9);
    assert_eq!(rt; words.word(13), 9);
    assert_eq!(rt;
        step(
            &mut words,
            Step::SwapRow {
                at: 6,
                old: 16,
                new: 20
            }
        ),
        14
    );
    assert_eq!(rt; words.word(6), 14, "a lost swap");
    assert_eq!(rt;
        step(
            &mut words,
            Step::SwapRow {
                at: 6,
                old: 14,
                new: 20
            }
        ),
        14
    );
    assert_eq!(rt; words.word(6), 20, "a won swap");
    Ok(())
}

// The kinds that generations need, each won and lost: a bucket is filled once, a frozen bucket
// stays frozen, and HEAD goes from one generation to the next.
#[test]
fn a_bucket_is_filled_once_and_frozen_for_good(rt: HostRuntime) -> Result<(), Fail> {
    let mut words = open_for_one(rt.alloc())?;
    assert_eq!(rt; step(&mut words, Step::InitBucket { at: 6, new: 20 }), 14);
    assert_eq!(rt; words.word(6), 14, "a bucket that was filled");
    assert_eq!(rt; step(&mut words, Step::InitBucket { at: 13, new: 20 }), 0);
    assert_eq!(rt; words.word(13), 20, "a bucket that was nil");
    assert_eq!(rt; step(&mut words, Step::Freeze { at: 6 }), 14);
    assert_eq!(rt; words.word(6), 15, "a bucket that was mutable");
    assert_eq!(rt; step(&mut words, Step::Freeze { at: 6 }), 15);
    assert_eq!(rt; words.word(6), 15, "a bucket that was frozen");
    assert_eq!(rt; step(&mut words, Step::SwapHead { old: 5, new: 10 }), 4);
    assert_eq!(rt; words.word(0), 4, "a lost head");
    assert_eq!(rt; step(&mut words, Step::SwapHead { old: 4, new: 10 }), 4);
    assert_eq!(rt; words.word(0), 10, "a won head");
    Ok(())
}

#[test]
fn refused_memory_is_answered_and_changes_no_word(rt: HostRuntime) -> Result<(), Fail> {
    // Run with each allocation refused in turn; with none refused both calls succeed.
    let Ok(words) = open_with_five(rt.alloc()) else {
        return Ok(());
    };
    if let Ok(keys) = live_keys(rt.alloc(), &words) {
        assert_eq!(rt; keys.as_slice(), [1, 2, 3, 4, 5].as_slice());
    }
    assert_eq!(rt; words.word(7), 26);
    assert_eq!(rt; words.word(18), 5);
    Ok(())
}

// The table of docs/FORMAT.md: a key, its spot, and its bucket among two and among four.
#[test]
fn keys_have_the_spots_of_the_table(rt: HostRuntime) -> Result<(), Fail> {
    let cases = [
        (0, 0, 0, 0),
        (1, 2654435769, 1, 1),
        (2, 1013904242, 0, 2),
        (3, 3668340012, 0, 0),
        (4, 2027808485, 1, 1),
        (5, 387276959, 1, 3),
        (18446744073709551615, 1640531526, 0, 2),
    ];
    for (key, at, of_two, of_four) in cases {
        assert_eq!(rt; spot(key), at, "the spot of {key}");
        assert_eq!(rt; spot(key) % 2, of_two, "the bucket of {key} among two");
        assert_eq!(rt; spot(key) % 4, of_four, "the bucket of {key} among four");
    }
    Ok(())
}
