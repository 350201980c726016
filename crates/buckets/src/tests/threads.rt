// Four passes held by threads of their own, which grow and shrink one table at once. Each exchange that
// an answer tells of is one link of the table's chain, whatever the schedule, and each head that a call
// found in its way is a generation of it.
ghost use Rattle.std.specs.Prelude.{◌≡◌, ℕ, ◌*◌, ◌≤◌, ◌<◌, IfOk, length, slice_index_or, All};
ghost use Rattle.std.specs.List.Sorted.{IsStrictlyIncreasing};
ghost use Rattle.cells.specs.Ends.{AreAllPasses};
ghost use Rattle.cells.specs.Tokens.{IsPassOf, IsSamePass, PassValue};
ghost use Rattle.step_core.specs.Fits.{IsWellFormed};
ghost use Rattle.step_core.specs.Plain.{HasPlainRows};

use super::*;
use crate::resizing::load_head;
use std::sync::atomic::AtomicU64;
use std::sync::atomic::Ordering::SeqCst;
use std::thread;
use std::thread::Threads;

// How many threads there are.
const THREADS: u64 = 4;

// How many calls each thread makes.
const CALLS: u64 = 246;

// A thread grows no table that it found with this exponent. So none has one past 7, even where all four
// found 3 and then grew it.
const MOST: u32 = 4;

// The words of room, which are enough if all threads fill each bucket, and all but one in vain.
const ROOM: u64 = 1_000_000;

// How many rounds there are at most until calls of both ways were lost.
const ROUNDS: u64 = 100;

// A mark for each way and each exponent, 0 to 24, which counts the heads that were put in; and one for what
// is wrong.
const MARKS: usize = 51;

const WRONG: usize = 50;

// The place of the mark for heads of this exponent that were put in this way.
fn place_of(way: Way, exponent: u64) -> usize
    ensures { result < MARKS }
{
    match way {
        _ if exponent > 24 => WRONG,
        Way::Grow => exponent as usize,
        Way::Shrink => 25 + exponent as usize,
    }
}

// The calls of all threads, one thread after another, are numbered from 0. They go up six times, down six
// times, and so on, so that every other thread begins with down.
fn way_of(call: u64) -> Way {
    if call % 12 < 6 {
        Way::Grow
    } else {
        Way::Shrink
    }
}

// Resizes the table, unless it is large. Marks the head that was put in, or keeps the one that was found.
fn resize_and_mark(
    round: &Round,
    pass: &mut Pass,
    call: u64,
    marks: &[AtomicU64],
    found: &[AtomicU64],
)
    requires pass { IsPassOf round.now pass.old }
    requires marks { MARKS ≤ length marks.now }
    requires call { call < length found.now }
    ensures pass { IsSamePass pass.old pass.new }
{
    let way = way_of(call);
    let before = load_head(round, pass);
    let outcome = match way {
        Way::Grow if before.exponent >= MOST => return,
        Way::Grow => grow(round, pass),
        Way::Shrink => shrink(round, pass),
    };
    match outcome {
        Resized::Changed { exponent } => {
            marks[place_of(way, exponent.into())].fetch_add(1, SeqCst);
        }
        // A head never comes back, so this isn't the one that was loaded before the call.
        Resized::Moved { head } if head != before.at => {
            found[call as usize].store(head, SeqCst);
        }
        Resized::AtLimit if matches!(way, Way::Shrink) => {}
        _ => {
            marks[WRONG].fetch_add(1, SeqCst);
        }
    }
}

// The calls of the thread of this number.
fn resize_often(
    round: &Round,
    pass: &mut Pass,
    number: u64,
    marks: &[AtomicU64],
    found: &[AtomicU64],
)
    requires pass { IsPassOf round.now pass.old }
    requires number { number < THREADS }
    requires marks { MARKS ≤ length marks.now }
    requires found { THREADS * CALLS ≤ length found.now }
    ensures pass { IsSamePass pass.old pass.new }
{
    for call in number * CALLS..(number + 1) * CALLS {
        resize_and_mark(round, pass, call, marks, found);
    }
}

// Each thread makes its calls with its pass.
fn resize_each<R: Threads + Sync>(
    rt: &R,
    round: &Round,
    passes: &mut [Pass],
    marks: &[AtomicU64],
    found: &[AtomicU64],
)
    requires passes { All (IsPassOf round.now) passes.old }
    requires few { length passes.old ≤ THREADS }
    requires marks { MARKS ≤ length marks.now }
    requires found { THREADS * CALLS ≤ length found.now }
    ensures long { length passes.new ≡ length passes.old }
    ensures tables { (k : ℕ) (d : PassValue) → k < length passes.old
        → (slice_index_or passes.new k d).table ≡ round.now.table }
    ensures facts { (k : ℕ) (d : PassValue) → k < length passes.old
        → (slice_index_or passes.new k d).view.facts ≡ round.now.facts }
    ensures numbers { (k : ℕ) (d : PassValue) → k < length passes.old
        → (slice_index_or passes.new k d).view.number ≡ (slice_index_or passes.old k d).view.number }
{
    let turns = |number: usize, pass: &mut Pass|
        requires { (number < THREADS) × IsPassOf round.now pass.now × (MARKS ≤ length marks.now)
            × (THREADS * CALLS ≤ length found.now) }
        ensures { (pass.exit.now.table ≡ round.entry.now.table)
            × (pass.exit.now.view.facts ≡ round.entry.now.facts)
            × (pass.exit.now.view.number ≡ pass.entry.now.view.number) }
    { resize_often(round, pass, number as u64, marks, found) };
    thread::for_each_mut(rt, passes, 64, &turns);
}

// The same of all passes of a round.
fn resize_together<R: Threads + Sync>(
    rt: &R,
    round: &Round,
    mut passes: Vec<Pass>,
    marks: &[AtomicU64],
    found: &[AtomicU64],
) -> Vec<Pass>
    requires passes { AreAllPasses round.now passes.items }
    requires few { length passes.items ≤ THREADS }
    requires marks { MARKS ≤ length marks.now }
    requires found { THREADS * CALLS ≤ length found.now }
    ensures passes { AreAllPasses round.now result.items }
{
    resize_each(rt, round, passes.as_mut_slice(), marks, found);
    passes
}

// The words of a round that began with these keys, once four threads made their calls.
fn words_left<R: Threads + Sync>(
    rt: &R,
    alloc: Global,
    keys: &[u64],
    marks: &[AtomicU64],
    found: &[AtomicU64],
) -> Result<Words, NoMemory>
    requires rising { IsStrictlyIncreasing keys.now }
    requires few { length keys.now ≤ 1000 }
    requires marks { MARKS ≤ length marks.now }
    requires found { THREADS * CALLS ≤ length found.now }
    ensures well_formed { IfOk result IsWellFormed }
    ensures plain { IfOk result HasPlainRows }
{
    let (round, passes) = begin_round(alloc, 4, keys, ROOM)?;
    let passes = resize_together(rt, &round, passes, marks, found);
    ended(alloc, round, passes)
}

// So many numbers, all 0.
fn zeros(alloc: Global, count: usize) -> Result<Vec<AtomicU64>, NoMemory>
    ensures { IfOk result (λ zeros. length zeros.items ≡ count) }
{
    let mut zeros = Vec::with_capacity(alloc, count)?;
    for made in 0..count {
        zeros.push(AtomicU64::new(0))?;
    }
    Ok(zeros)
}

// The word at a place.
fn word_at(words: &Words, at: u64) -> u64 {
    match words.as_slice().get(at as usize) {
        Some(word) => *word,
        None => 0,
    }
}

// The generations from the head back to the opening's, by their addresses.
fn chain_of(alloc: Global, words: &Words) -> Result<Vec<u64>, NoMemory> {
    let mut chain = Vec::new(alloc);
    let mut at = word_at(words, 0);
    for _link in 0..=THREADS * CALLS {
        if at == 0 {
            break;
        }
        chain.push(at)?;
        at = word_at(words, at.saturating_add(1));
    }
    Ok(chain)
}

// Takes the link between two generations, of these exponents, off the mark of its kind.
fn take_off(marks: &[AtomicU64], before: u64, after: u64)
    requires { MARKS ≤ length marks.now }
{
    if after.abs_diff(before) != 1 {
        marks[WRONG].fetch_add(1, SeqCst);
    } else if before < after {
        marks[place_of(Way::Grow, after)].fetch_sub(1, SeqCst);
    } else {
        marks[place_of(Way::Shrink, after)].fetch_sub(1, SeqCst);
    }
}

// Takes each link of the chain off its mark. None is left where each was told of once.
fn take_all_off(words: &Words, chain: &[u64], marks: &[AtomicU64])
    requires { MARKS ≤ length marks.now }
{
    for link in 1..chain.len() {
        let before = word_at(words, chain[link]);
        let after = word_at(words, chain[link - 1]);
        take_off(marks, before, after);
    }
}

// An exchange that is told of but not made, one that is made twice, and a lost one that tells of a head
// which was never put in would fail here.
#[test]
fn four_threads_tell_of_each_head_once(rt: HostRuntime) -> Result<(), Fail> {
    let keys = [1, 2, 3, 4, 5, 6, 7, 8, 9, 10, 11, 12, 13, 14, 15, 16];
    let (mut up, mut down) = (false, false);
    for _round in 0..ROUNDS {
        let marks = zeros(rt.alloc(), MARKS)?;
        let found = zeros(rt.alloc(), (THREADS * CALLS) as usize)?;
        let words = words_left(&rt, rt.alloc(), &keys, &marks, &found)?;
        let chain = chain_of(rt.alloc(), &words)?;
        take_all_off(&words, &chain, &marks);
        assert!(rt; marks.iter().all(|mark| mark.load(SeqCst) == 0));
        for (call, head) in found.iter().enumerate() {
            let head = head.load(SeqCst);
            if head == 0 {
                continue;
            }
            assert!(rt; chain.as_slice().contains(&head), "{call}");
            match way_of(call as u64) {
                Way::Grow => up = true,
                Way::Shrink => down = true,
            }
        }
        assert_eq!(rt; live_keys(rt.alloc(), &words)?.as_slice(), keys.as_slice());
        if up && down {
            return Ok(());
        }
    }
    panic!(rt; "no growth was lost to another thread, or no shrinking")
}
