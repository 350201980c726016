ghost use Rattle.std.specs.Prelude.{◌≡◌, ◌≤◌, IfOk, length, All};
ghost use Rattle.claims.specs.Tokens.{IsSeatOf, AreAllSeats};
ghost use Rattle.claims.specs.declared.rule.TheConstants.{MAX_LEN, MAX_CHUNK, MAX_SEATS};

use super::*;
use std::sync::atomic::AtomicU64;
use std::sync::atomic::Ordering::SeqCst;
use std::thread;
use std::thread::Threads;

// Adds one to the mark of each place of the claim.
fn mark(claim: Claim, marks: &[AtomicU64])
    requires { claim.to ≤ length marks.now }
{
    for place in claim.from..claim.to {
        marks[place as usize].fetch_add(1, SeqCst);
    }
}

// Marks the places of all claims that the seat can take.
fn mark_all(claims: &Claims, seat: &mut ClaimSeat, marks: &[AtomicU64])
    requires seat { IsSeatOf claims.now seat.old }
    requires marks { claims.now.setup.len ≤ length marks.now }
    ensures { IsSeatOf claims.now seat.new }
{
    while let Some(claim) = claims.take(seat) {
        mark(claim, marks);
    }
}

// The same for each of the seats, in a thread of its own.
fn mark_together<R: Threads + Sync>(
    rt: &R,
    claims: &Claims,
    seats: &mut [ClaimSeat],
    marks: &[AtomicU64],
)
    requires seats { All (IsSeatOf claims.now) seats.old }
    requires marks { claims.now.setup.len ≤ length marks.now }
    ensures seats { All (IsSeatOf claims.now) seats.new }
    ensures whole { length seats.new ≡ length seats.old }
{
    let work = |_: usize, seat: &mut ClaimSeat|
        requires { IsSeatOf claims.now seat.now × (claims.now.setup.len ≤ length marks.now) }
        ensures { IsSeatOf claims.entry.now seat.exit.now }
    { mark_all(claims, seat, marks) };
    thread::for_each_mut(rt, seats, 64, &work);
}

// A counter with its seats.
fn begin(
    alloc: Global,
    len: u64,
    chunk: u64,
    count: u32,
) -> Result<(Claims, Vec<ClaimSeat>), NoMemory>
    requires len { len ≤ MAX_LEN }
    requires chunk { (1 ≤ chunk) × (chunk ≤ MAX_CHUNK) }
    requires count { (1 ≤ count) × (count ≤ MAX_SEATS) }
    ensures setup { IfOk result (λ made. made.0.setup.len ≡ len) }
    ensures seats { IfOk result (λ made. AreAllSeats made.0 made.1.items) }
{
    let (claims, seats) = Claims::new(alloc, len, chunk, count)?;
    Ok((claims, seats))
}

// A body that gives a place twice, or none, leaves a mark that isn't 1, whatever the schedule.
#[test]
fn each_place_is_marked_once_by_64_threads(rt: HostRuntime) -> Result<(), Fail> {
    let mut marks = Vec::with_capacity(rt.alloc(), 100_000)?;
    for _ in 0..100_000 {
        marks.push(AtomicU64::new(0))?;
    }
    assert_eq!(rt; marks.len(), 100_000);
    let (claims, mut seats) = begin(rt.alloc(), 100_000, 7, 64)?;
    mark_together(&rt, &claims, seats.as_mut_slice(), marks.as_slice());
    assert_eq!(rt; claims.finish(seats), 100_000);
    for mark in &marks {
        assert_eq!(rt; mark.load(SeqCst), 1);
    }
    Ok(())
}
