// A large set that goes from round to round, with four threads at work in each. Of random keys the
// greatest tenth is removed, and as many others come in: a plain set, which keeps its keys rising,
// takes these calls in a moment.
ghost use Rattle.std.specs.Prelude.{◌≡◌, ℕ, ◌≤◌, ◌<◌, true, None, IfOk, length, slice_index_or, All};
ghost use Rattle.std.specs.List.Sorted.{IsStrictlyIncreasing};
ghost use Rattle.cells.specs.Tokens.{PassValue};
ghost use Rattle.hash_set.specs.Tests.{AreIdle, IsIdle, Keeps};
ghost use Rattle.step_core.specs.Limits.{max_keys};

use super::*;
use set_model::{Call, PlainSet};
use std::thread;
use std::thread::Threads;
use step_core::MAX_KEYS;

// So many keys at first, of which a tenth goes and another comes.
const KEYS: u64 = 1_000_000;

// The number that the i-th step of a generator mixes (Steele, Lea and Flood, "Fast splittable
// pseudorandom number generators", OOPSLA 2014).
fn random(i: u64) -> u64 {
    let a = i.wrapping_mul(0x9e37_79b9_7f4a_7c15);
    let b = (a ^ (a >> 30)).wrapping_mul(0xbf58_476d_1ce4_e5b9);
    let c = (b ^ (b >> 27)).wrapping_mul(0x94d0_49bb_1331_11eb);
    c ^ (c >> 31)
}

// The keys of these steps, rising.
fn random_keys(alloc: Global, from: u64, to: u64) -> Result<Vec<u64>, NoMemory> {
    let mut keys = Vec::new(alloc);
    for i in from..to {
        keys.push(random(i))?;
    }
    keys.sort_unstable();
    keys.dedup();
    Ok(keys)
}

// Whether the keys rise.
fn rise(keys: &[u64]) -> bool
    ensures { result ≡ true → IsStrictlyIncreasing keys.now }
{
    for place in 1..keys.len() {
        if keys[place] <= keys[place - 1] {
            return false;
        }
    }
    true
}

// The call at each key of a part, of as many parts as there are threads.
fn call_part(round: &Round, pass: &mut Pass, call: Call, keys: &[u64], part: (usize, usize))
    requires pass { IsIdle round.now pass.old }
    ensures { Keeps round.now pass.old pass.new }
{
    for (place, key) in keys.iter().enumerate() {
        if part.1 > 0 && place % part.1 == part.0 {
            match call {
                Call::Remove => removed(round, pass, *key),
                _ => inserted(round, pass, *key),
            };
        }
    }
}

// Each thread makes the call at the keys of its part.
fn call_each<R: Threads + Sync>(
    rt: &R,
    round: &Round,
    passes: &mut [Pass],
    call: Call,
    keys: &[u64],
)
    requires passes { All (IsIdle round.now) passes.old }
    requires few { length passes.old ≤ 64 }
    ensures long { length passes.new ≡ length passes.old }
    ensures tables { (k : ℕ) (d : PassValue) → k < length passes.old
        → (slice_index_or passes.new k d).table ≡ round.now.table }
    ensures facts { (k : ℕ) (d : PassValue) → k < length passes.old
        → (slice_index_or passes.new k d).view.facts ≡ round.now.facts }
    ensures flights { (k : ℕ) (d : PassValue) → k < length passes.old
        → (slice_index_or passes.new k d).view.flight ≡ None }
    ensures numbers { (k : ℕ) (d : PassValue) → k < length passes.old
        → (slice_index_or passes.new k d).view.number ≡ (slice_index_or passes.old k d).view.number }
{
    let count = passes.len();
    let turns = |index: usize, pass: &mut Pass|
        requires { IsIdle round.now pass.now }
        ensures { (pass.exit.now.table ≡ round.entry.now.table)
            × (pass.exit.now.view.facts ≡ round.entry.now.facts)
            × (pass.exit.now.view.flight ≡ None)
            × (pass.exit.now.view.number ≡ pass.entry.now.view.number) }
    { call_part(round, pass, call, keys, (index, count)) };
    thread::for_each_mut(rt, passes, 64, &turns);
}

// The same of all passes of a round.
fn call_together<R: Threads + Sync>(
    rt: &R,
    round: &Round,
    mut passes: Vec<Pass>,
    call: Call,
    keys: &[u64],
) -> Vec<Pass>
    requires passes { AreIdle round.now passes.items }
    requires some { (1 ≤ length passes.items) × (length passes.items ≤ 64) }
    ensures passes { AreIdle round.now result.items }
    ensures long { length result.items ≡ length passes.items }
{
    call_each(rt, round, passes.as_mut_slice(), call, keys);
    passes
}

// The keys after a round of four threads that began with these, removed some and inserted others.
fn keys_left<R: Threads + Sync>(
    rt: &R,
    alloc: Global,
    keys: &[u64],
    removes: &[u64],
    inserts: &[u64],
) -> Result<Vec<u64>, OpenFault>
    requires rising { IsStrictlyIncreasing keys.now }
    requires few { length keys.now ≤ max_keys }
    ensures rising { IfOk result (λ keys. IsStrictlyIncreasing keys.items) }
{
    let (round, passes) = start_round(alloc, keys, plan_of(4, 1_000_000, 4_000_000))?;
    let passes = call_together(rt, &round, passes, Call::Remove, removes);
    let passes = call_together(rt, &round, passes, Call::Insert, inserts);
    let closing = closed(alloc, round, passes)?;
    Ok(Vec::from_slice(alloc, closing.keys())?)
}

// The same calls on a plain set.
fn call_plain(set: &mut PlainSet, removes: &[u64], inserts: &[u64]) -> Result<(), NoMemory> {
    for key in removes.iter().rev() {
        set.apply(Call::Remove, *key)?;
    }
    for key in inserts {
        set.apply(Call::Insert, *key)?;
    }
    Ok(())
}

#[test]
fn a_large_set_goes_from_round_to_round(rt: HostRuntime) -> Result<(), Fail> {
    let keys = random_keys(rt.alloc(), 0, KEYS)?;
    let others = random_keys(rt.alloc(), KEYS, 2 * KEYS)?;
    assert!(rt; keys.len() as u64 == KEYS && rise(keys.as_slice()));
    let removes = keys.get(900_000..).unwrap_or(&[]);
    let inserts = others.get(900_000..).unwrap_or(&[]);
    assert!(rt; removes.len() == 100_000 && inserts.len() == 100_000);
    let mut plain = PlainSet::from_sorted(Vec::from_slice(rt.alloc(), keys.as_slice())?);

    let first = keys_left(&rt, rt.alloc(), keys.as_slice(), removes, inserts)?;
    call_plain(&mut plain, removes, inserts)?;
    assert!(rt; first.as_slice() == plain.keys());
    assert!(rt; first.as_slice() != keys.as_slice() && first.len() <= MAX_KEYS);

    // The next round begins with what the first left, and takes the calls back.
    let second = keys_left(&rt, rt.alloc(), first.as_slice(), inserts, removes)?;
    call_plain(&mut plain, inserts, removes)?;
    assert!(rt; second.as_slice() == plain.keys());
    assert!(rt; second.as_slice() == keys.as_slice());
    Ok(())
}
