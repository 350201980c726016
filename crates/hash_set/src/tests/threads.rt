// Passes held by threads of their own, which insert and remove the ids 1 to 4,000 at once. Each id is
// taken by two of them, and its insert and its remove must be true exactly once, whatever the schedule.
ghost use Rattle.std.specs.Prelude.{◌≡◌, ℕ, ◌≤◌, ◌<◌, None, IfOk, length, slice_index_or, All};
ghost use Rattle.std.specs.List.Sorted.{IsStrictlyIncreasing};
ghost use Rattle.cells.specs.Tokens.{IsPassOf, PassValue};
ghost use Rattle.hash_set.specs.Tests.{AreIdle, IsIdle, Keeps};

use super::*;
use set_model::Call;
use std::sync::atomic::AtomicU64;
use std::sync::atomic::Ordering::SeqCst;
use std::thread;
use std::thread::Threads;
use step_core::live_keys;

// The ids are 1 to so many.
const IDS: u64 = 4000;

// What each thread does.
#[derive(Clone, Copy, Debug, PartialEq, Eq)]
enum Work {
    // Inserts the ids of its part and of the next.
    Insert,
    // Removes every third of them.
    Remove,
    // Inserts and removes a key that is its own.
    OwnKey,
}

// Whether the call changed the set.
pub(super) fn has_changed(outcome: Option<Outcome>) -> bool {
    match outcome {
        Some(Outcome::Done(answered)) => answered.changed,
        _ => false,
    }
}

// A call at the key, which marks its id where it changed the set.
pub(super) fn call_and_mark(
    round: &Round,
    pass: &mut Pass,
    call: Call,
    id: u64,
    marks: &[AtomicU64],
)
    requires pass { IsIdle round.now pass.old }
    requires marks { id ≤ length marks.now }
    requires some { 1 ≤ id }
    ensures { Keeps round.now pass.old pass.new }
{
    let outcome = match call {
        Call::Remove => removed(round, pass, id),
        _ => inserted(round, pass, id),
    };
    if has_changed(outcome) {
        marks[id as usize - 1].fetch_add(1, SeqCst);
    }
}

// Of as many parts as there are threads, the ids of the thread's own part and of the next.
fn call_in_parts(round: &Round, pass: &mut Pass, call: Call, part: (u64, u64), marks: &[AtomicU64])
    requires pass { IsIdle round.now pass.old }
    requires marks { IDS ≤ length marks.now }
    requires part { (part.0 ≤ 64) × (1 ≤ part.1) × (part.1 ≤ 64) }
    ensures { Keeps round.now pass.old pass.new }
{
    for k in part.0 * IDS / part.1..(part.0 + 2) * IDS / part.1 {
        let id = k % IDS + 1;
        if call != Call::Remove || id % 3 == 0 {
            call_and_mark(round, pass, call, id, marks);
        }
    }
}

// Inserts and removes the thread's own key by turns, and looks it up each time. At the end the key's mark is
// 1 where the key is in the set, and more where a look-up was wrong.
fn change_own_key(round: &Round, pass: &mut Pass, key: u64, marks: &[AtomicU64])
    requires pass { IsIdle round.now pass.old }
    requires marks { key < length marks.now }
    ensures { Keeps round.now pass.old pass.new }
{
    let mut present = false;
    for k in 0..500 {
        let outcome = if k % 2 == 0 {
            inserted(round, pass, key)
        } else {
            removed(round, pass, key)
        };
        if has_changed(outcome) {
            present = k % 2 == 0;
        }
        if contained(round, pass, key) != Some(present) {
            marks[key as usize].fetch_add(2, SeqCst);
        }
    }
    marks[key as usize].fetch_add(u64::from(present), SeqCst);
}

// A thread's work.
fn do_work(round: &Round, pass: &mut Pass, work: Work, part: (u64, u64), marks: &[AtomicU64])
    requires pass { IsIdle round.now pass.old }
    requires marks { IDS ≤ length marks.now }
    requires part { (part.0 < 64) × (1 ≤ part.1) × (part.1 ≤ 64) }
    ensures { Keeps round.now pass.old pass.new }
{
    match work {
        Work::Insert => call_in_parts(round, pass, Call::Insert, part, marks),
        Work::Remove => call_in_parts(round, pass, Call::Remove, part, marks),
        Work::OwnKey => change_own_key(round, pass, part.0, marks),
    }
}

// Each thread does so with its pass.
fn call_each<R: Threads + Sync>(
    rt: &R,
    round: &Round,
    passes: &mut [Pass],
    work: Work,
    marks: &[AtomicU64],
)
    requires passes { All (IsIdle round.now) passes.old }
    requires some { 1 ≤ length passes.old }
    requires few { length passes.old ≤ 64 }
    requires marks { IDS ≤ length marks.now }
    ensures long { length passes.new ≡ length passes.old }
    ensures tables { (k : ℕ) (d : PassValue) → k < length passes.old
        → (slice_index_or passes.new k d).table ≡ round.now.table }
    ensures facts { (k : ℕ) (d : PassValue) → k < length passes.old
        → (slice_index_or passes.new k d).view.facts ≡ round.now.facts }
    ensures flights { (k : ℕ) (d : PassValue) → k < length passes.old
        → (slice_index_or passes.new k d).view.flight ≡ None }
    ensures numbers { (k : ℕ) (d : PassValue) → k < length passes.old
        → (slice_index_or passes.new k d).view.number ≡ (slice_index_or passes.old k d).view.number }
{
    let count = passes.len() as u64;
    let turns = |index: usize, pass: &mut Pass|
        requires { (index < 64) × (1 ≤ count) × (count ≤ 64) × IsIdle round.now pass.now
            × (IDS ≤ length marks.now) }
        ensures { (pass.exit.now.table ≡ round.entry.now.table)
            × (pass.exit.now.view.facts ≡ round.entry.now.facts)
            × (pass.exit.now.view.flight ≡ None)
            × (pass.exit.now.view.number ≡ pass.entry.now.view.number) }
    { do_work(round, pass, work, (index as u64, count), marks) };
    thread::for_each_mut(rt, passes, 64, &turns);
}

// The same of all passes of a round.
fn call_together<R: Threads + Sync>(
    rt: &R,
    round: &Round,
    mut passes: Vec<Pass>,
    work: Work,
    marks: &[AtomicU64],
) -> Vec<Pass>
    requires passes { AreIdle round.now passes.items }
    requires some { (1 ≤ length passes.items) × (length passes.items ≤ 64) }
    requires marks { IDS ≤ length marks.now }
    ensures passes { AreIdle round.now result.items }
    ensures long { length result.items ≡ length passes.items }
{
    call_each(rt, round, passes.as_mut_slice(), work, marks);
    passes
}

// A mark for each id.
fn no_marks(alloc: Global) -> Result<Vec<AtomicU64>, NoMemory>
    ensures { IfOk result (λ marks. length marks.items ≡ IDS) }
{
    let mut marks = Vec::with_capacity(alloc, IDS as usize)?;
    for made in 0..IDS {
        marks.push(AtomicU64::new(0))?;
    }
    Ok(marks)
}

// The keys 10,001 to 14,000, which spread the ids over 1,024 buckets.
fn other_keys(alloc: Global) -> Result<Vec<u64>, NoMemory>
    ensures rising { IfOk result (λ keys. IsStrictlyIncreasing keys.items) }
    ensures count { IfOk result (λ keys. length keys.items ≡ 4000) }
{
    let mut keys = Vec::new(alloc);
    for key in 0..4000 {
        keys.push(10_001 + key)?;
    }
    Ok(keys)
}

// The keys of the set once so many threads inserted all ids, and then removed every third.
fn keys_left<R: Threads + Sync>(
    rt: &R,
    alloc: Global,
    count: u32,
    inserts: &[AtomicU64],
    removes: &[AtomicU64],
) -> Result<Vec<u64>, NoMemory>
    requires count { (1 ≤ count) × (count ≤ 64) }
    requires marks { (IDS ≤ length inserts.now) × (IDS ≤ length removes.now) }
{
    let keys = other_keys(alloc)?;
    let (round, passes) = begin(alloc, count, keys.as_slice(), 1_000_000, 1_000_000)?;
    let passes = call_together(rt, &round, passes, Work::Insert, inserts);
    let passes = call_together(rt, &round, passes, Work::Remove, removes);
    let words = ended(alloc, round, passes)?;
    live_keys(alloc, &words)
}

// The ids that are no multiple of three, and behind them the other keys.
fn expected(alloc: Global) -> Result<Vec<u64>, NoMemory> {
    let mut keys = Vec::new(alloc);
    for id in 1..=IDS {
        if id % 3 != 0 {
            keys.push(id)?;
        }
    }
    for key in 0..4000 {
        keys.push(10_001 + key)?;
    }
    Ok(keys)
}

#[test]
fn four_threads_change_each_id_once(rt: HostRuntime) -> Result<(), Fail> {
    let inserts = no_marks(rt.alloc())?;
    let removes = no_marks(rt.alloc())?;
    let keys = keys_left(&rt, rt.alloc(), 4, inserts.as_slice(), removes.as_slice())?;
    assert!(rt; inserts.iter().all(|mark| mark.load(SeqCst) == 1));
    for (place, mark) in removes.iter().enumerate() {
        assert_eq!(rt; mark.load(SeqCst), u64::from(place % 3 == 2), "{place}");
    }
    assert!(rt; keys.as_slice() == expected(rt.alloc())?.as_slice());
    Ok(())
}

#[test]
fn sixty_four_threads_change_each_id_once(rt: HostRuntime) -> Result<(), Fail> {
    let inserts = no_marks(rt.alloc())?;
    let removes = no_marks(rt.alloc())?;
    let keys = keys_left(&rt, rt.alloc(), 64, inserts.as_slice(), removes.as_slice())?;
    assert!(rt; inserts.iter().all(|mark| mark.load(SeqCst) == 1));
    for (place, mark) in removes.iter().enumerate() {
        assert_eq!(rt; mark.load(SeqCst), u64::from(place % 3 == 2), "{place}");
    }
    assert!(rt; keys.as_slice() == expected(rt.alloc())?.as_slice());
    Ok(())
}

// The keys that eight threads leave of their own, which share one bucket. A call is tried once, so many
// are refused.
fn own_keys_left<R: Threads + Sync>(
    rt: &R,
    alloc: Global,
    marks: &[AtomicU64],
) -> Result<Vec<u64>, NoMemory>
    requires marks { IDS ≤ length marks.now }
{
    let (round, passes) = begin(alloc, 8, &[], 1, 1_000_000)?;
    let passes = call_together(rt, &round, passes, Work::OwnKey, marks);
    let words = ended(alloc, round, passes)?;
    live_keys(alloc, &words)
}

#[test]
fn refused_calls_change_nothing(rt: HostRuntime) -> Result<(), Fail> {
    let marks = no_marks(rt.alloc())?;
    let keys = own_keys_left(&rt, rt.alloc(), marks.as_slice())?;
    for (key, mark) in marks.iter().enumerate() {
        let present = keys.as_slice().contains(&(key as u64));
        assert_eq!(rt; mark.load(SeqCst), u64::from(present), "{key}");
    }
    Ok(())
}
