// Passes held by threads of their own, some of which put in generations while others call. Each id is
// taken by two threads, and its insert and its remove must be true exactly once; each thread's own keys
// are in the end as it left them, whatever the schedule.
ghost use Rattle.std.specs.Prelude.{◌≡◌, ℕ, ◌+◌, ◌*◌, ◌≤◌, ◌<◌, None, IfOk, length, slice_index_or, All};
ghost use Rattle.cells.specs.Tokens.{PassValue};
ghost use Rattle.hash_set.specs.Tests.{AreIdle, IsIdle, Keeps};

use super::super::threads::{call_and_mark, has_changed};
use super::random::Random;
use super::schedules::spaced;
use super::*;
use set_model::Call;
use std::sync::atomic::AtomicU64;
use std::sync::atomic::Ordering::SeqCst;
use std::thread;
use std::thread::Threads;
use step_core::live_keys;

// The ids are 1 to so many.
const IDS: u64 = 100;

// The first key that is a thread's own, and how many each thread has.
const FIRST_OWN: u64 = 1000;

const OWN: u64 = 20;

// The first of a hundred keys that are in the set all the time. Those between them never are.
const FIRST_KEPT: u64 = 2000;

// How many generations a thread tries to put in: up six times, down six times, and so on. It is a
// multiple of twelve, so that a table ends as it began.
const RESIZES: u64 = 1008;

// The words of room, which are enough if each call is made in one bucket, and lost to all other threads.
const ROOM: u64 = 8_000_000;

// Marks for the ids and the threads' own keys, then one for the generations that were put in, and one
// for answers that were wrong.
const MARKS: u64 = FIRST_OWN + 8 * OWN + 2;

const HEADS: usize = MARKS as usize - 2;

const WRONG: usize = MARKS as usize - 1;

// What a thread does.
#[derive(Clone, Copy, Debug, PartialEq, Eq)]
enum Role {
    // Inserts the ids of its part and of the next, twenty times.
    Insert,
    // Removes every third of them, twenty times.
    Remove,
    // Inserts and removes its own keys.
    Change,
    // Puts in generations.
    Resize,
    // Looks up keys that are in the set all the time, and such as never are.
    Read,
}

// Which threads there are.
#[derive(Clone, Copy, Debug, PartialEq, Eq)]
enum Crew {
    // Four that do the same, and one that puts in generations.
    Four(Role),
    // Two that put in generations, four that change their own keys, and others that only read.
    Readers,
}

impl Crew {
    // What the thread of this number does, from 0.
    fn role(self, number: u64) -> Role {
        match self {
            Crew::Four(role) if number < 4 => role,
            Crew::Four(_) => Role::Resize,
            Crew::Readers if number < 2 => Role::Resize,
            Crew::Readers if number < 6 => Role::Change,
            Crew::Readers => Role::Read,
        }
    }
}

// Of the four parts of the ids, those of the thread's own part and of the next, twenty times.
fn call_in_parts(round: &Round, pass: &mut Pass, call: Call, part: u64, marks: &[AtomicU64])
    requires pass { IsIdle round.now pass.old }
    requires marks { MARKS ≤ length marks.now }
    requires part { part < 8 }
    ensures { Keeps round.now pass.old pass.new }
{
    for k in 0..20 * IDS / 2 {
        let id = (part * IDS / 4 + k % (IDS / 2)) % IDS + 1;
        if call != Call::Remove || id % 3 == 0 {
            call_and_mark(round, pass, call, id, marks);
        }
    }
}

// Inserts or removes the key, of which this thread alone takes care, and looks it up then. Gives whether it
// is in the set.
fn change_key(round: &Round, pass: &mut Pass, key: u64, present: bool, marks: &[AtomicU64]) -> bool
    requires pass { IsIdle round.now pass.old }
    requires marks { MARKS ≤ length marks.now }
    ensures { Keeps round.now pass.old pass.new }
{
    let outcome = if present {
        removed(round, pass, key)
    } else {
        inserted(round, pass, key)
    };
    if !has_changed(outcome) || contained(round, pass, key) != Some(!present) {
        marks[WRONG].fetch_add(1, SeqCst);
    }
    has_changed(outcome) != present
}

// Changes the thread's own keys in a random order, and then marks those that are in the set.
fn change_own_keys(round: &Round, pass: &mut Pass, number: u64, marks: &[AtomicU64])
    requires pass { IsIdle round.now pass.old }
    requires marks { MARKS ≤ length marks.now }
    requires number { number < 8 }
    ensures { Keeps round.now pass.old pass.new }
{
    let first = FIRST_OWN + number * OWN;
    let mut random = Random::from_seed(number);
    let mut present = [false; OWN as usize];
    for _change in 0..500 {
        let place = random.below(OWN);
        let was = present[place as usize];
        present[place as usize] = change_key(round, pass, first + place, was, marks);
    }
    for (place, is) in present.iter().enumerate() {
        marks[first as usize + place].fetch_add(u64::from(*is), SeqCst);
    }
}

// Puts in generations, up first where the number is even, and counts them.
fn resize_often(round: &Round, pass: &mut Pass, number: u64, marks: &[AtomicU64])
    requires pass { IsIdle round.now pass.old }
    requires marks { MARKS ≤ length marks.now }
    requires number { number < 8 }
    ensures { Keeps round.now pass.old pass.new }
{
    for k in 0..RESIZES {
        let way = if (k + 6 * number) % 12 < 6 {
            Way::Up
        } else {
            Way::Down
        };
        if resized(round, pass, way) {
            marks[HEADS].fetch_add(1, SeqCst);
        }
    }
}

// Looks up the keys that are in the set all the time, and those between them.
fn read_often(round: &Round, pass: &mut Pass, marks: &[AtomicU64])
    requires pass { IsIdle round.now pass.old }
    requires marks { MARKS ≤ length marks.now }
    ensures { Keeps round.now pass.old pass.new }
{
    for k in 0..5000 {
        if contained(round, pass, FIRST_KEPT + k % 200) != Some(k % 2 == 0) {
            marks[WRONG].fetch_add(1, SeqCst);
        }
    }
}

// A thread's work.
fn do_work(round: &Round, pass: &mut Pass, role: Role, number: u64, marks: &[AtomicU64])
    requires pass { IsIdle round.now pass.old }
    requires marks { MARKS ≤ length marks.now }
    requires number { number < 8 }
    ensures { Keeps round.now pass.old pass.new }
{
    match role {
        Role::Insert => call_in_parts(round, pass, Call::Insert, number, marks),
        Role::Remove => call_in_parts(round, pass, Call::Remove, number, marks),
        Role::Change => change_own_keys(round, pass, number, marks),
        Role::Resize => resize_often(round, pass, number, marks),
        Role::Read => read_often(round, pass, marks),
    }
}

// Each thread does its work with its pass.
fn work_each<R: Threads + Sync>(
    rt: &R,
    round: &Round,
    passes: &mut [Pass],
    crew: Crew,
    marks: &[AtomicU64],
)
    requires passes { All (IsIdle round.now) passes.old }
    requires some { 1 ≤ length passes.old }
    requires few { length passes.old ≤ 8 }
    requires marks { MARKS ≤ length marks.now }
    ensures long { length passes.new ≡ length passes.old }
    ensures tables { (k : ℕ) (d : PassValue) → k < length passes.old
        → (slice_index_or passes.new k d).table ≡ round.now.table }
    ensures facts { (k : ℕ) (d : PassValue) → k < length passes.old
        → (slice_index_or passes.new k d).view.facts ≡ round.now.facts }
    ensures flights { (k : ℕ) (d : PassValue) → k < length passes.old
        → (slice_index_or passes.new k d).view.flight ≡ None }
    ensures numbers { (k : ℕ) (d : PassValue) → k < length passes.old
        → (slice_index_or passes.new k d).view.number ≡ (slice_index_or passes.old k d).view.number }
{
    let turns = |number: usize, pass: &mut Pass|
        requires { (number < 8) × IsIdle round.now pass.now × (MARKS ≤ length marks.now) }
        ensures { (pass.exit.now.table ≡ round.entry.now.table)
            × (pass.exit.now.view.facts ≡ round.entry.now.facts)
            × (pass.exit.now.view.flight ≡ None)
            × (pass.exit.now.view.number ≡ pass.entry.now.view.number) }
    { do_work(round, pass, crew.role(number as u64), number as u64, marks) };
    thread::for_each_mut(rt, passes, 64, &turns);
}

// The same of all passes of a round.
fn work_together<R: Threads + Sync>(
    rt: &R,
    round: &Round,
    mut passes: Vec<Pass>,
    crew: Crew,
    marks: &[AtomicU64],
) -> Vec<Pass>
    requires passes { AreIdle round.now passes.items }
    requires some { (1 ≤ length passes.items) × (length passes.items ≤ 8) }
    requires marks { MARKS ≤ length marks.now }
    ensures passes { AreIdle round.now result.items }
    ensures long { length result.items ≡ length passes.items }
{
    work_each(rt, round, passes.as_mut_slice(), crew, marks);
    passes
}

// Marks that count nothing yet.
fn no_marks(alloc: Global) -> Result<Vec<AtomicU64>, NoMemory>
    ensures { IfOk result (λ marks. length marks.items ≡ MARKS) }
{
    let mut marks = Vec::with_capacity(alloc, MARKS as usize)?;
    for made in 0..MARKS {
        marks.push(AtomicU64::new(0))?;
    }
    Ok(marks)
}

// The keys of the set once four threads inserted all ids, removed every third, and changed their own,
// while a fifth put in generations.
fn keys_left<R: Threads + Sync>(
    rt: &R,
    alloc: Global,
    inserts: &[AtomicU64],
    removes: &[AtomicU64],
    own: &[AtomicU64],
) -> Result<Vec<u64>, NoMemory>
    requires inserts { MARKS ≤ length inserts.now }
    requires removes { MARKS ≤ length removes.now }
    requires own { MARKS ≤ length own.now }
{
    let (round, passes) = begin(alloc, 5, &[], 1_000_000, ROOM)?;
    let passes = work_together(rt, &round, passes, Crew::Four(Role::Insert), inserts);
    let passes = work_together(rt, &round, passes, Crew::Four(Role::Remove), removes);
    let passes = work_together(rt, &round, passes, Crew::Four(Role::Change), own);
    let words = ended(alloc, round, passes)?;
    live_keys(alloc, &words)
}

// Of so many keys from the first on, those that have a mark.
fn push_marked(
    keys: &mut Vec<u64>,
    own: &[AtomicU64],
    first: u64,
    count: u64,
) -> Result<(), NoMemory>
    requires { first + count ≤ MARKS }
{
    for place in first..first + count {
        match own.get(place as usize) {
            Some(mark) if mark.load(SeqCst) == 1 => keys.push(place)?,
            _ => {}
        }
    }
    Ok(())
}

// The ids that are no multiple of three, and behind them the marked ones of the threads' own keys.
fn expected(alloc: Global, own: &[AtomicU64]) -> Result<Vec<u64>, NoMemory> {
    let mut keys = Vec::new(alloc);
    for id in 1..=IDS {
        if id % 3 != 0 {
            keys.push(id)?;
        }
    }
    push_marked(&mut keys, own, FIRST_OWN, 4 * OWN)?;
    Ok(keys)
}

// A bucket that is filled without freezing its sources, or a turn that goes on in a frozen bucket, would
// lose a key here.
#[test]
fn four_threads_change_each_id_once_while_one_resizes(rt: HostRuntime) -> Result<(), Fail> {
    let inserts = no_marks(rt.alloc())?;
    let removes = no_marks(rt.alloc())?;
    let own = no_marks(rt.alloc())?;
    let keys = keys_left(&rt, rt.alloc(), &inserts, &removes, &own)?;
    for place in 0..IDS as usize {
        assert_eq!(rt; inserts[place].load(SeqCst), 1, "{place}");
        assert_eq!(rt;
            removes[place].load(SeqCst),
            u64::from(place % 3 == 2),
            "{place}"
        );
    }
    // No other thread puts in generations, so none comes too late.
    for marks in [&inserts, &removes, &own] {
        assert_eq!(rt; marks[HEADS].load(SeqCst), RESIZES);
        assert_eq!(rt; marks[WRONG].load(SeqCst), 0);
    }
    assert!(rt; keys.as_slice() == expected(rt.alloc(), &own)?.as_slice());
    Ok(())
}

// The keys of the set, a hundred of which are there from the beginning, once four threads changed their
// own keys, while two put in generations and two looked keys up.
fn kept_keys_left<R: Threads + Sync>(
    rt: &R,
    alloc: Global,
    marks: &[AtomicU64],
) -> Result<Vec<u64>, NoMemory>
    requires marks { MARKS ≤ length marks.now }
{
    let kept = spaced(alloc, FIRST_KEPT, 2)?;
    let (round, passes) = begin(alloc, 8, kept.as_slice(), 1_000_000, ROOM)?;
    let passes = work_together(rt, &round, passes, Crew::Readers, marks);
    let words = ended(alloc, round, passes)?;
    live_keys(alloc, &words)
}

// A look-up that takes a nil bucket for one without keys would say false of a kept key here.
#[test]
fn readers_find_what_is_kept_while_two_resize(rt: HostRuntime) -> Result<(), Fail> {
    let marks = no_marks(rt.alloc())?;
    let keys = kept_keys_left(&rt, rt.alloc(), &marks)?;
    assert_eq!(rt; marks[WRONG].load(SeqCst), 0);
    assert!(rt; marks[HEADS].load(SeqCst) > 0);
    let mut expected = Vec::new(rt.alloc());
    push_marked(&mut expected, &marks, FIRST_OWN + 2 * OWN, 4 * OWN)?;
    for key in spaced(rt.alloc(), FIRST_KEPT, 2)? {
        expected.push(key)?;
    }
    assert!(rt; keys.as_slice() == expected.as_slice());
    Ok(())
}
