// Every row of an opening, found from the head. The rows expected are those of docs/FORMAT.md.
ghost use Rattle.std.specs.Prelude.{◌≡◌, ◌≤◌, length, slice_index, IfOk, IfSome};
ghost use Rattle.std.specs.List.Sorted.{IsStrictlyIncreasing};
ghost use Rattle.cells.specs.Tokens.{IsPassOf, IsSamePass, fresh_pass, fresh_passes};
ghost use Rattle.fset.specs.Seen.{IsSeen};

use super::*;
use cells::{Pass, Plan, Round};
use set_model::NoMemory;
use std::alloc::Global;
use std::test::Fail;
use step_core::{FIRST_BUCKET, Layout, opening, opening_words, row_address, spot};

mod halves;
mod turns;

// A round that begins with these keys, and has so many words of room.
fn begin_round(
    alloc: Global,
    seats: u32,
    keys: &[u64],
    room: u64,
) -> Result<(Round, Vec<Pass>), NoMemory>
    requires seats { (1 ≤ seats) × (seats ≤ 2) }
    requires rising { IsStrictlyIncreasing keys.now }
    requires few { (length keys.now ≤ 1000) × (room ≤ 1000) }
    ensures passes { IfOk result (λ r. r.1.items ≡ fresh_passes r.0) }
    ensures seats { IfOk result (λ r. r.0.facts.seats ≡ seats) }
{
    let plan = Plan {
        seats,
        fast: 1,
        turns: 1,
        room,
    };
    let layout = Layout {
        seats,
        cap: opening_words(seats, keys) + plan.room,
    };
    let words = opening(alloc, &layout, keys)?;
    Round::from_words(alloc, words, layout, plan)
}

// A round of one pass that begins with these keys, and the pass.
fn begin(alloc: Global, keys: &[u64], room: u64) -> Result<(Round, Pass), NoMemory>
    requires rising { IsStrictlyIncreasing keys.now }
    requires few { (length keys.now ≤ 1000) × (room ≤ 1000) }
    ensures pass { IfOk result (λ r. r.1 ≡ fresh_pass r.0 0) }
    ensures seats { IfOk result (λ r. r.0.facts.seats ≡ 1) }
{
    let (round, mut passes) = begin_round(alloc, 1, keys, room)?;
    match passes.pop() {
        Some(pass) => Ok((round, pass)),
        None => unreachable!(),
    }
}

// The keys from 0 on, so many.
fn first_keys(alloc: Global, count: u64) -> Result<Vec<u64>, NoMemory>
    ensures rising { IfOk result (λ keys. IsStrictlyIncreasing keys.items) }
    ensures count { IfOk result (λ keys. length keys.items ≡ count) }
{
    let mut keys = Vec::new(alloc);
    for key in 0..count {
        keys.push(key)?;
    }
    Ok(keys)
}

// The row in the bucket of the head, if it has that bucket and it isn't nil.
fn row_in(round: &Round, pass: &mut Pass, bucket: u64) -> Option<Seen>
    requires pass { IsPassOf round.now pass.old }
    ensures pass { IsSamePass pass.old pass.new }
    ensures answer { IfSome result (IsSeen pass.new.view) }
{
    let head = round.load_head(pass);
    let exponent = round.load_sealed(pass, head);
    round.sound(pass);
    if bucket >= 1 << exponent {
        return None;
    }
    let word = round.load_bucket(pass, head + FIRST_BUCKET + bucket);
    if word == 0 {
        return None;
    }
    round.sound(pass);
    Some(read_row(round, pass, row_address(word)))
}

// Whether the row in the bucket has the key, if there is one.
fn found_in(round: &Round, pass: &mut Pass, bucket: u64, key: u64) -> Option<bool>
    requires pass { IsPassOf round.now pass.old }
    ensures pass { IsSamePass pass.old pass.new }
{
    let seen = row_in(round, pass, bucket)?;
    Some(find(round, pass, &seen, key))
}

// Whether of the keys up to 1,001 the row in the bucket of 256 has those below 1,000 that are of
// its class.
fn has_its_class(round: &Round, pass: &mut Pass, bucket: u64) -> bool
    requires pass { IsPassOf round.now pass.old }
    ensures pass { IsSamePass pass.old pass.new }
{
    for key in 0..1002 {
        let expected = key < 1000 && u64::from(spot(key)) % 256 == bucket;
        if found_in(round, pass, bucket, key) != Some(expected) {
            return false;
        }
    }
    true
}

// The example of docs/FORMAT.md. A row read from another word would fail here too.
#[test]
fn both_rows_of_five_keys_are_read(rt: HostRuntime) -> Result<(), Fail> {
    let (round, mut pass) = begin(rt.alloc(), &[1, 2, 3, 4, 5], 1)?;
    let first = Seen {
        at: 8,
        count: 2,
        op: 0,
        result: 0,
    };
    let second = Seen {
        at: 13,
        count: 3,
        op: 0,
        result: 0,
    };
    assert_eq!(rt; row_in(&round, &mut pass, 0), Some(first));
    assert_eq!(rt; row_in(&round, &mut pass, 1), Some(second));
    assert_eq!(rt; row_in(&round, &mut pass, 2), None);
    Ok(())
}

// Bucket 0 has the keys 2 and 3, and bucket 1 the others. A search that goes on into the row behind
// would fail here too.
#[test]
fn each_of_five_keys_is_found_in_one_row(rt: HostRuntime) -> Result<(), Fail> {
    let (round, mut pass) = begin(rt.alloc(), &[1, 2, 3, 4, 5], 1)?;
    let cases = [
        (0, 1, false),
        (0, 2, true),
        (0, 3, true),
        (0, 4, false),
        (1, 0, false),
        (1, 1, true),
        (1, 3, false),
        (1, 4, true),
        (1, 5, true),
        (1, 6, false),
    ];
    for (bucket, key, expected) in cases {
        let found = found_in(&round, &mut pass, bucket, key);
        assert_eq!(rt; found, Some(expected), "{key} in {bucket}");
    }
    Ok(())
}

// Of 1,000 keys each is found in the row of its bucket and in no other, and none past the last is.
#[test]
fn each_of_a_thousand_keys_is_found_in_one_row(rt: HostRuntime) -> Result<(), Fail> {
    let keys = first_keys(rt.alloc(), 1000)?;
    let (round, mut pass) = begin(rt.alloc(), &keys, 1)?;
    for bucket in 0..256 {
        assert!(rt; has_its_class(&round, &mut pass, bucket), "{bucket}");
    }
    Ok(())
}
