// Turns: what each answers and leaves, when one is Full, and how one is lost to another pass.
ghost use Rattle.std.specs.Prelude.{◌≡◌, ◌≢◌, ◌+◌, ◌<◌, ◌≤◌, None, IfOk, IfSome};
ghost use Rattle.cells.specs.Exchanges.{MaySwapRow};
ghost use Rattle.cells.specs.Tokens.{HasNewCall, IsPassOf, IsSamePass, fresh_pass};
ghost use Rattle.fset.specs.Seen.{IsSeen};
ghost use Rattle.set_model.specs.declared.call.Call.TheVariants.{Contains};

use super::{begin, begin_round};
use crate::content::place_among;
use crate::rows::build_at;
use crate::*;
use cells::{Block, Pass, Round};
use set_model::{Call, NoMemory};
use std::alloc::Global;
use std::test::Fail;
use step_core::{MAX_CALLS, live_keys};

// An insert or a remove.
fn change(insert: bool) -> Call
    ensures { result ≢ Contains }
{
    if insert { Call::Insert } else { Call::Remove }
}

// One call that is tried once.
fn tried(round: &Round, pass: &mut Pass, insert: bool, key: u64) -> Option<Turn>
    requires pass { IsPassOf round.now pass.old }
    requires idle { pass.old.view.flight ≡ None }
    ensures pass { IsPassOf round.now pass.new × (pass.new.view.number ≡ pass.old.view.number) }
    ensures idle { pass.new.view.flight ≡ None }
{
    if pass.calls() >= MAX_CALLS {
        return None;
    }
    round.begin_call(pass);
    Some(turn(round, pass, change(insert), key))
}

// Whether the set has the key, as the pass sees it.
fn has(round: &Round, pass: &mut Pass, key: u64) -> bool
    requires pass { IsPassOf round.now pass.old }
    ensures pass { IsSamePass pass.old pass.new }
    ensures idle { pass.new.view.flight ≡ pass.old.view.flight }
{
    let Seek::Found(sought) = seek(round, pass, key) else {
        return false;
    };
    find(round, pass, &sought.row, key)
}

// Whether of the keys up to 13 the set has these alone.
fn has_only(round: &Round, pass: &mut Pass, keys: &[u64]) -> bool
    requires pass { IsPassOf round.now pass.old }
    ensures pass { IsSamePass pass.old pass.new }
    ensures idle { pass.new.view.flight ≡ pass.old.view.flight }
{
    for key in 0..14 {
        if has(round, pass, key) != keys.contains(&key) {
            return false;
        }
    }
    true
}

// The number of words of a row that is built so, where the call changes the content and there is room.
fn built(round: &Round, pass: &mut Pass, seen: &Seen, call: Call, key: u64) -> Option<u64>
    requires pass { IsPassOf round.now pass.old }
    requires knows { IsSeen pass.old.view seen.now }
    requires call { call ≢ Contains }
    ensures pass { IsSamePass pass.old pass.new }
    ensures knows { IsSeen pass.new.view seen.now }
{
    round.sound(pass);
    let found = find(round, pass, seen, key);
    round.sound(pass);
    if !call.answer(found) {
        return None;
    }
    let block = build_changed(round, pass, seen, call, key);
    round.sound(pass);
    match block {
        Ok(block) => Some(block.len()),
        Err(_) => None,
    }
}

// A call that changed the set, and one that didn't, with the width that each has.
fn changed(width: u32) -> Option<Turn> {
    Some(Turn::Done(Answered {
        changed: true,
        width,
    }))
}

fn found(width: u32) -> Option<Turn> {
    Some(Turn::Done(Answered {
        changed: false,
        width,
    }))
}

// In an empty round each kind of turn changes the set once, and then finds it so.
#[test]
fn a_turn_changes_the_set_once(rt: HostRuntime) -> Result<(), Fail> {
    let (round, mut pass) = begin(rt.alloc(), &[], 20)?;
    let steps = [
        (true, 5, changed(1)),
        (true, 5, found(1)),
        (false, 6, found(1)),
        (true, 6, changed(2)),
        (false, 5, changed(1)),
        (false, 5, found(1)),
        (false, 6, changed(0)),
        (false, 6, found(0)),
    ];
    for (insert, key, expected) in steps {
        assert_eq!(rt;
            tried(&round, &mut pass, insert, key),
            expected,
            "{insert} {key}"
        );
    }
    Ok(())
}

// The row has the keys 2, 4, 6, 8 and 10. A builder that leaves out the key at either end, or a
// remove of the key beside, would fail here too.
#[test]
fn keys_at_either_end_of_a_row_of_five_come_and_go(rt: HostRuntime) -> Result<(), Fail> {
    let (round, mut pass) = begin(rt.alloc(), &[2, 4, 6, 8], 100)?;
    assert_eq!(rt; tried(&round, &mut pass, true, 10), changed(5));
    assert!(rt; has_only(&round, &mut pass, &[2, 4, 6, 8, 10]));
    assert_eq!(rt; tried(&round, &mut pass, false, 10), changed(4));
    assert!(rt; has_only(&round, &mut pass, &[2, 4, 6, 8]));
    assert_eq!(rt; tried(&round, &mut pass, true, 1), changed(5));
    assert!(rt; has_only(&round, &mut pass, &[1, 2, 4, 6, 8]));
    assert_eq!(rt; tried(&round, &mut pass, false, 1), changed(4));
    assert_eq!(rt; tried(&round, &mut pass, false, 2), changed(3));
    assert!(rt; has_only(&round, &mut pass, &[4, 6, 8]));
    assert_eq!(rt; tried(&round, &mut pass, true, 5), changed(4));
    assert!(rt; has_only(&round, &mut pass, &[4, 5, 6, 8]));
    assert_eq!(rt; tried(&round, &mut pass, false, 6), changed(3));
    assert!(rt; has_only(&round, &mut pass, &[4, 5, 8]));
    Ok(())
}

// The opening has two buckets: 2 and 3 are of the first, 1, 4 and 5 of the second. A turn that takes the
// other bucket, or leaves a key of its own behind, would fail here too.
#[test]
fn turns_in_two_buckets_leave_each_other_alone(rt: HostRuntime) -> Result<(), Fail> {
    let (round, mut pass) = begin(rt.alloc(), &[1, 2, 3, 4, 5], 100)?;
    assert_eq!(rt; tried(&round, &mut pass, true, 0), changed(3));
    assert!(rt; has_only(&round, &mut pass, &[0, 1, 2, 3, 4, 5]));
    assert_eq!(rt; tried(&round, &mut pass, false, 4), changed(2));
    assert_eq!(rt; tried(&round, &mut pass, false, 3), changed(2));
    assert_eq!(rt; tried(&round, &mut pass, true, 4), changed(3));
    assert!(rt; has_only(&round, &mut pass, &[0, 1, 2, 4, 5]));
    Ok(())
}

// A builder's block is as long as its row, and is had where there is room for it. The row of 2 and 3
// lies in the first bucket.
#[test]
fn a_builder_gives_a_block_of_its_rows_length(rt: HostRuntime) -> Result<(), Fail> {
    let (round, mut pass) = begin(rt.alloc(), &[1, 2, 3, 4, 5], 10)?;
    let Seek::Found(sought) = seek(&round, &mut pass, 3) else {
        panic!(rt; "no bucket is nil or frozen")
    };
    assert_eq!(rt;
        built(&round, &mut pass, &sought.row, Call::Remove, 3),
        Some(4)
    );
    assert_eq!(rt;
        built(&round, &mut pass, &sought.row, Call::Insert, 0),
        Some(6)
    );
    assert_eq!(rt;
        built(&round, &mut pass, &sought.row, Call::Remove, 3),
        None
    );
    assert_eq!(rt; pass.spent(), Some(29));
    Ok(())
}

// An opening without keys has ten words. With three more a row of one key passes the end; a turn that
// changes nothing is answered all the same.
#[test]
fn a_turn_is_full_where_its_row_does_not_fit(rt: HostRuntime) -> Result<(), Fail> {
    let (round, mut pass) = begin(rt.alloc(), &[], 3)?;
    assert_eq!(rt; tried(&round, &mut pass, true, 7), Some(Turn::Full));
    assert_eq!(rt; pass.spent(), Some(10));
    assert_eq!(rt; tried(&round, &mut pass, true, 7), Some(Turn::Full));
    assert_eq!(rt; pass.spent(), Some(10));
    assert_eq!(rt; tried(&round, &mut pass, false, 7), found(0));
    assert!(rt; has_only(&round, &mut pass, &[]));
    Ok(())
}

// With four words more it fits.
#[test]
fn a_row_that_fits_exactly_is_built(rt: HostRuntime) -> Result<(), Fail> {
    let (round, mut pass) = begin(rt.alloc(), &[], 4)?;
    assert_eq!(rt; tried(&round, &mut pass, true, 7), changed(1));
    assert_eq!(rt; tried(&round, &mut pass, false, 7), Some(Turn::Full));
    assert_eq!(rt; pass.spent(), Some(14));
    Ok(())
}

// A round without keys, with its two passes.
fn begin_two(alloc: Global) -> Result<(Round, Pass, Pass), NoMemory>
    ensures seats { IfOk result (λ r. r.0.facts.seats ≡ 2) }
    ensures first { IfOk result (λ r. r.1 ≡ fresh_pass r.0 0) }
    ensures second { IfOk result (λ r. r.2 ≡ fresh_pass r.0 1) }
{
    let (round, mut passes) = begin_round(alloc, 2, &[], 100)?;
    let (Some(second), Some(first)) = (passes.pop(), passes.pop()) else {
        unreachable!()
    };
    Ok((round, first, second))
}

// The keys that such a round ends with.
fn end_two(alloc: Global, round: Round, first: Pass, second: Pass) -> Result<Vec<u64>, NoMemory>
    requires seats { round.facts.seats ≡ 2 }
    requires first { IsPassOf round first × (first.view.number ≡ 0) }
    requires second { IsPassOf round second × (second.view.number ≡ 1) }
{
    let mut passes = Vec::new(alloc);
    passes.push(first)?;
    passes.push(second)?;
    match round.into_words(alloc, passes) {
        Ok((words, _)) => live_keys(alloc, &words),
        Err((refused, _, _)) => Err(refused),
    }
}

// A turn of an insert up to its exchange.
#[derive(Drop)]
struct Ready {
    place: u64,
    word: u64,
    block: Block,
}

// The steps of a turn before its exchange. There is none where the key is there, or no room is.
fn ready_to_insert(round: &Round, pass: &mut Pass, key: u64) -> Option<Ready>
    requires pass { IsPassOf round.now pass.old }
    requires idle { pass.old.view.flight ≡ None }
    ensures pass { IsSamePass pass.old pass.new }
    ensures idle { (pass.new.view.flight ≡ None) × (pass.new.view.used ≡ pass.old.view.used) }
    ensures ready { IfSome result
        (λ ready. MaySwapRow pass.new.view ready.place ready.word ready.block.at) }
{
    let Seek::Found(sought) = seek(round, pass, key) else {
        return None;
    };
    let place = place_among(round, pass, &sought.row, key);
    round.sound(pass);
    if place.taken {
        return None;
    }
    let Ok(block) = build_at(round, pass, &sought.row, Call::Insert, key, place.before) else {
        return None;
    };
    round.sound(pass);
    Some(Ready {
        place: sought.place,
        word: sought.word,
        block,
    })
}

// Between the second pass's load of the bucket and its exchange the first pass makes a whole turn. So
// the exchange finds another word; the call has no entry, and its next turn is answered.
#[test]
fn a_turn_is_lost_to_another_pass_and_then_tried_again(rt: HostRuntime) -> Result<(), Fail> {
    let (round, mut first, mut second) = begin_two(rt.alloc())?;
    round.begin_call(&mut second);
    let Some(ready) = ready_to_insert(&round, &mut second, 9) else {
        panic!(rt; "the key is absent, and there is room")
    };
    assert_eq!(rt; tried(&round, &mut first, true, 5), changed(1));
    let Err(_) = round.swap_row(&mut second, ready.place, ready.word, ready.block) else {
        panic!(rt; "the first pass has exchanged the bucket's row")
    };
    let again = turn(&round, &mut second, Call::Insert, 9);
    assert_eq!(rt; Some(again), changed(2));
    assert_eq!(rt; tried(&round, &mut second, true, 5), found(2));
    assert_eq!(rt; tried(&round, &mut first, false, 9), changed(1));
    let keys = end_two(rt.alloc(), round, first, second)?;
    assert_eq!(rt; keys.as_slice(), [5].as_slice());
    Ok(())
}
