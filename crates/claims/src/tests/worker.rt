ghost use Rattle.std.specs.Prelude.{◌≡◌, ◌≤◌, ◌++◌, OnOk, IfOk};
ghost use Rattle.std.specs.List.{flat_map};
ghost use Rattle.claims.specs.Places.{places_of};
ghost use Rattle.claims.specs.Tokens.{IsSeatOf};

use super::*;
use std::ops::ControlFlow;

// A worker, and the places that it has done: those of its claims, in their order.
#[derive(Drop)]
struct Worker<'a> {
    claims: &'a Claims,
    seat: ClaimSeat,
    done: Vec<u64>,
    ghost ours: { IsSeatOf claims.now seat },
    ghost done_are_claimed: { done.items ≡ flat_map places_of seat.claims },
}

// Does the places of a claim, in their order.
fn do_places(claim: Claim, done: &mut Vec<u64>) -> Result<(), NoMemory>
    requires { claim.from ≤ claim.to }
    ensures { OnOk result (done.new.items ≡ done.old.items ++ places_of claim) }
{
    for place in claim.from..claim.to {
        done.push(place)?;
    }
    Ok(())
}

// Does the places of one claim more, if the worker can take one.
fn take_turn(worker: Worker<'_>) -> Result<ControlFlow<Worker<'_>, Worker<'_>>, NoMemory> {
    let Worker {
        claims,
        mut seat,
        mut done,
    } = worker;
    let Some(claim) = claims.take(&mut seat) else {
        return Ok(ControlFlow::Break(Worker { claims, seat, done }));
    };
    do_places(claim, &mut done)?;
    Ok(ControlFlow::Continue(Worker { claims, seat, done }))
}

// Does the places of all claims that it can take. What it has done is kept by its type alone.
fn work(mut worker: Worker<'_>) -> Result<Worker<'_>, NoMemory> {
    for _ in 0..u64::MAX {
        worker = match take_turn(worker)? {
            ControlFlow::Continue(worker) => worker,
            ControlFlow::Break(worker) => return Ok(worker),
        };
    }
    Ok(worker)
}

#[test]
fn a_lone_worker_does_the_places_in_order(rt: HostRuntime) -> Result<(), Fail> {
    let (claims, seat) = begin_alone(rt.alloc(), 5, 2)?;
    let worker = Worker {
        claims: &claims,
        seat,
        done: Vec::new(rt.alloc()),
    };
    let Worker { done, .. } = work(worker)?;
    assert_eq!(rt; done.as_slice(), [0, 1, 2, 3, 4].as_slice());
    Ok(())
}
