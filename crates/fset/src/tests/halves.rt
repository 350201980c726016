// Rows of a part of another's keys, and of the keys of two. The rounds whose last words are looked at
// have no room but for the rows that are built. The rows expected are those of docs/FORMAT.md.
ghost use Rattle.std.specs.Prelude.{◌≡◌, ◌≤◌};
ghost use Rattle.cells.specs.Tokens.{IsPassOf, IsSamePass};
ghost use Rattle.step_core.specs.Limits.{max_exponent};

use super::{begin, first_keys, row_in};
use crate::*;
use cells::{Pass, Round};
use set_model::NoMemory;
use std::alloc::Global;
use std::test::Fail;
use step_core::{Words, spot};

// The number of words of a row that is built of those keys of one bucket's row that are of another
// bucket's class, where there is room.
fn split(round: &Round, pass: &mut Pass, source: u64, exponent: u32, bucket: u64) -> Option<u64>
    requires pass { IsPassOf round.now pass.old }
    requires exponent { exponent ≤ max_exponent }
    ensures pass { IsSamePass pass.old pass.new }
{
    let seen = row_in(round, pass, source)?;
    match build_split(round, pass, &seen, exponent, bucket) {
        Ok(block) => Some(block.len()),
        Err(_) => None,
    }
}

// The number of words of a row that is built of the rows in which two keys have their places, where
// there is room.
fn joined(round: &Round, pass: &mut Pass, low: u64, high: u64) -> Option<u64>
    requires pass { IsPassOf round.now pass.old }
    ensures pass { IsSamePass pass.old pass.new }
{
    let Seek::Found(first) = seek(round, pass, low) else {
        return None;
    };
    let Seek::Found(second) = seek(round, pass, high) else {
        return None;
    };
    round.sound(pass);
    match build_joined(round, pass, &first.row, &second.row) {
        Ok(block) => Some(block.len()),
        Err(_) => None,
    }
}

// The words that a round of one pass ends with.
fn end(alloc: Global, round: Round, pass: Pass) -> Result<Words, NoMemory>
    requires seats { round.facts.seats ≡ 1 }
    requires pass { IsPassOf round pass }
    requires number { pass.view.number ≡ 0 }
{
    let mut passes = Vec::new(alloc);
    passes.push(pass)?;
    match round.into_words(alloc, passes) {
        Ok((words, _)) => Ok(words),
        Err((refused, _, _)) => Err(refused),
    }
}

// Whether the key is of the class of a bucket among so many.
fn is_of(key: u64, buckets: u32, bucket: u64) -> bool {
    buckets > 0 && u64::from(spot(key) % buckets) == bucket
}

// The words of a row of those keys that are of the class of a bucket among so many.
fn row_of(alloc: Global, keys: &[u64], buckets: u32, bucket: u64) -> Result<Vec<u64>, NoMemory> {
    let mut of_class = Vec::new(alloc);
    for key in keys {
        if is_of(*key, buckets, bucket) {
            of_class.push(*key)?;
        }
    }
    let mut row = Vec::new(alloc);
    row.extend_from_slice(&[of_class.len() as u64, 0, 0])?;
    row.extend_from_slice(&of_class)?;
    Ok(row)
}

// The least key below 200 in the bucket of 64, or 0.
fn first_in(bucket: u64) -> u64 {
    for key in 0..200 {
        if is_of(key, 64, bucket) {
            return key;
        }
    }
    0
}

// Builds both halves of each of 64 rows, and gives the words of these rows.
fn split_all(
    alloc: Global,
    round: &Round,
    pass: &mut Pass,
    keys: &[u64],
) -> Result<Vec<u64>, NoMemory>
    requires pass { IsPassOf round.now pass.old }
    ensures pass { IsSamePass pass.old pass.new }
{
    let mut rows = Vec::new(alloc);
    for half in 0..128 {
        split(round, pass, half % 64, 7, half);
        rows.extend_from_slice(&row_of(alloc, keys, 128, half)?)?;
    }
    Ok(rows)
}

// Builds the 32 rows of which 64 rows are halves, and gives the words of these rows.
fn join_all(
    alloc: Global,
    round: &Round,
    pass: &mut Pass,
    keys: &[u64],
) -> Result<Vec<u64>, NoMemory>
    requires pass { IsPassOf round.now pass.old }
    ensures pass { IsSamePass pass.old pass.new }
{
    let mut rows = Vec::new(alloc);
    for bucket in 0..32 {
        joined(round, pass, first_in(bucket), first_in(bucket + 32));
        rows.extend_from_slice(&row_of(alloc, keys, 32, bucket)?)?;
    }
    Ok(rows)
}

// Of the keys 1 to 4 the first half has 2 and 3, and the second 1 and 4. A split that keeps the other
// half, or all keys, would fail here too.
#[test]
fn a_row_of_four_keys_splits_into_two_halves(rt: HostRuntime) -> Result<(), Fail> {
    let (round, mut pass) = begin(rt.alloc(), &[1, 2, 3, 4], 10)?;
    assert_eq!(rt; split(&round, &mut pass, 0, 1, 0), Some(5));
    assert_eq!(rt; split(&round, &mut pass, 0, 1, 1), Some(5));
    let words = end(rt.alloc(), round, pass)?;
    let rows = [2, 0, 0, 2, 3, 2, 0, 0, 1, 4];
    assert!(rt; words.as_slice().ends_with(&rows));
    Ok(())
}

// With the greatest exponent the bucket 3635641 has 1 alone, and most have no key. A bucket past the
// last has none either.
#[test]
fn a_split_of_the_greatest_exponent_has_one_key_or_none(rt: HostRuntime) -> Result<(), Fail> {
    let (round, mut pass) = begin(rt.alloc(), &[1, 2, 3, 4], 10)?;
    assert_eq!(rt; split(&round, &mut pass, 0, 24, 3635641), Some(4));
    assert_eq!(rt; split(&round, &mut pass, 0, 24, 5), Some(3));
    assert_eq!(rt; split(&round, &mut pass, 0, 1, 2), Some(3));
    let words = end(rt.alloc(), round, pass)?;
    let rows = [1, 0, 0, 1, 0, 0, 0, 0, 0, 0];
    assert!(rt; words.as_slice().ends_with(&rows));
    Ok(())
}

// The opening's rows have 2 and 3, and 1, 4 and 5. Joined they are the row that both are halves of,
// whichever is the first, and one joined with itself is that one. A join that leaves out one of
// its rows, or puts one behind the other, would fail here too.
#[test]
fn two_halves_join_into_the_row_of_both(rt: HostRuntime) -> Result<(), Fail> {
    let (round, mut pass) = begin(rt.alloc(), &[1, 2, 3, 4, 5], 22)?;
    assert_eq!(rt; joined(&round, &mut pass, 2, 1), Some(8));
    assert_eq!(rt; joined(&round, &mut pass, 1, 2), Some(8));
    assert_eq!(rt; joined(&round, &mut pass, 1, 4), Some(6));
    let words = end(rt.alloc(), round, pass)?;
    let rows = [
        5, 0, 0, 1, 2, 3, 4, 5, 5, 0, 0, 1, 2, 3, 4, 5, 3, 0, 0, 1, 4, 5,
    ];
    assert!(rt; words.as_slice().ends_with(&rows));
    Ok(())
}

// The keys 1, 4, 5, 8 and 9 are all of the second bucket, so the first bucket's row has none.
#[test]
fn a_row_without_keys_joins_into_the_other(rt: HostRuntime) -> Result<(), Fail> {
    let (round, mut pass) = begin(rt.alloc(), &[1, 4, 5, 8, 9], 19)?;
    assert_eq!(rt; joined(&round, &mut pass, 0, 1), Some(8));
    assert_eq!(rt; joined(&round, &mut pass, 1, 0), Some(8));
    assert_eq!(rt; joined(&round, &mut pass, 0, 0), Some(3));
    let words = end(rt.alloc(), round, pass)?;
    let rows = [5, 0, 0, 1, 4, 5, 8, 9, 5, 0, 0, 1, 4, 5, 8, 9, 0, 0, 0];
    assert!(rt; words.as_slice().ends_with(&rows));
    Ok(())
}

// 200 keys lie in 64 rows, which have 128 halves.
#[test]
fn each_row_of_two_hundred_keys_splits(rt: HostRuntime) -> Result<(), Fail> {
    let keys = first_keys(rt.alloc(), 200)?;
    let (round, mut pass) = begin(rt.alloc(), &keys, 584)?;
    let rows = split_all(rt.alloc(), &round, &mut pass, &keys)?;
    let words = end(rt.alloc(), round, pass)?;
    assert!(rt; words.as_slice().ends_with(&rows));
    Ok(())
}

// Two and two they join into 32 rows.
#[test]
fn each_two_rows_of_two_hundred_keys_join(rt: HostRuntime) -> Result<(), Fail> {
    let keys = first_keys(rt.alloc(), 200)?;
    let (round, mut pass) = begin(rt.alloc(), &keys, 296)?;
    let rows = join_all(rt.alloc(), &round, &mut pass, &keys)?;
    let words = end(rt.alloc(), round, pass)?;
    assert!(rt; words.as_slice().ends_with(&rows));
    Ok(())
}

// The opening has 14 words, and each half five.
#[test]
fn a_half_that_lacks_a_word_of_room_is_refused(rt: HostRuntime) -> Result<(), Fail> {
    let (round, mut pass) = begin(rt.alloc(), &[1, 2, 3, 4], 9)?;
    assert_eq!(rt; split(&round, &mut pass, 0, 1, 0), Some(5));
    assert_eq!(rt; split(&round, &mut pass, 0, 1, 1), None);
    assert_eq!(rt; pass.spent(), Some(19));
    assert_eq!(rt; split(&round, &mut pass, 0, 1, 2), None);
    assert_eq!(rt; pass.spent(), Some(19));
    Ok(())
}

// The opening has 19 words, and the row of both eight.
#[test]
fn a_joined_row_that_lacks_a_word_of_room_is_refused(rt: HostRuntime) -> Result<(), Fail> {
    let (round, mut pass) = begin(rt.alloc(), &[1, 2, 3, 4, 5], 7)?;
    assert_eq!(rt; joined(&round, &mut pass, 2, 1), None);
    assert_eq!(rt; pass.spent(), Some(19));
    assert_eq!(rt; joined(&round, &mut pass, 2, 2), None);
    assert_eq!(rt; pass.spent(), Some(19));
    Ok(())
}
