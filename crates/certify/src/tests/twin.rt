// A slow judge that follows the definition word by word, and random logs for both.
ghost use Rattle.std.specs.Prelude.{◌<◌};

use crate::{Claimed, Verdict, check_order};
use set_model::{Call, PlainSet};
use std::alloc::Global;
use std::test::Fail;

// What is wrong at the place, by the numbers at the places before it.
fn fault_at(
    alloc: Global,
    calls: &[Claimed],
    earlier: &[u64],
    number: u64,
    place: u64,
) -> Result<Option<Verdict>, Fail> {
    if number == 0 || number > calls.len() as u64 {
        return Ok(Some(Verdict::Unknown { place }));
    }
    if earlier.contains(&number) {
        return Ok(Some(Verdict::Repeated { place }));
    }
    let claimed = *calls.get(number as usize - 1).ok_or("a known number")?;
    for (index, other) in calls.iter().enumerate() {
        let smaller = index as u64 + 1;
        if smaller < number && other.who == claimed.who && !earlier.contains(&smaller) {
            return Ok(Some(Verdict::Early { place }));
        }
    }
    let mut set = PlainSet::new(alloc);
    for before in earlier {
        let made = calls
            .get((*before as usize).wrapping_sub(1))
            .ok_or("a known number")?;
        set.apply(made.call, made.key)?;
    }
    if set.apply(claimed.call, claimed.key)? != claimed.answer {
        return Ok(Some(Verdict::Wrong { place }));
    }
    Ok(None)
}

// The verdict, place by place.
fn slow_verdict(alloc: Global, calls: &[Claimed], order: &[u64]) -> Result<Verdict, Fail> {
    for (index, number) in order.iter().enumerate() {
        let fault = fault_at(alloc, calls, &order[..index], *number, index as u64 + 1)?;
        if let Some(verdict) = fault {
            return Ok(verdict);
        }
    }
    for index in 0..calls.len() {
        let number = index as u64 + 1;
        if !order.contains(&number) {
            return Ok(Verdict::Missing { number });
        }
    }
    Ok(Verdict::Legal)
}

// Numbers that only look random.
#[derive(Drop)]
struct Random(u64);

impl Random {
    fn below(&mut self, bound: u64) -> u64
        requires { 0 < bound }
        ensures { result < bound }
    {
        self.0 = self
            .0
            .wrapping_mul(6364136223846793005)
            .wrapping_add(1442695040888963407);
        (self.0 >> 33) % bound
    }
}

// Up to 40 calls of three callers on four keys, answered in their order, now and then wrongly.
fn random_calls(alloc: Global, random: &mut Random) -> Result<Vec<Claimed>, Fail> {
    let mut calls = Vec::new(alloc);
    let mut set = PlainSet::new(alloc);
    for _ in 0..random.below(41) {
        let call = match random.below(3) {
            0 => Call::Insert,
            1 => Call::Remove,
            _ => Call::Contains,
        };
        let key = random.below(4);
        let answer = set.apply(call, key)? != (random.below(90) == 0);
        let who = random.below(3) as u32;
        calls.push(Claimed {
            who,
            call,
            key,
            answer,
        })?;
    }
    Ok(calls)
}

// Their own order with up to three changes: two numbers that stand together change places, a number
// is written over, the last one falls away.
fn random_order(alloc: Global, random: &mut Random, count: usize) -> Result<Vec<u64>, Fail> {
    let mut order = Vec::new(alloc);
    for index in 0..count {
        order.push(index as u64 + 1)?;
    }
    for _ in 0..random.below(4) {
        let index = random.below(40) as usize;
        match random.below(6) {
            0 => {
                order.pop();
            }
            1 => {
                if let Some(number) = order.get_mut(index) {
                    *number = random.below(43);
                }
            }
            _ => {
                if index + 1 < order.len() {
                    order.swap(index, index + 1);
                }
            }
        }
    }
    Ok(order)
}

// Which of the six verdicts it is.
fn kind_of(verdict: Verdict) -> usize
    ensures { result < 6 }
{
    match verdict {
        Verdict::Legal => 0,
        Verdict::Unknown { .. } => 1,
        Verdict::Repeated { .. } => 2,
        Verdict::Early { .. } => 3,
        Verdict::Wrong { .. } => 4,
        Verdict::Missing { .. } => 5,
    }
}

#[test]
fn judges_random_logs_as_the_definition_does(rt: HostRuntime) -> Result<(), Fail> {
    let alloc = rt.alloc();
    let mut random = Random(7);
    let mut met = [false; 6];
    for _ in 0..400 {
        let calls = random_calls(alloc, &mut random)?;
        let order = random_order(alloc, &mut random, calls.len())?;
        let verdict = slow_verdict(alloc, &calls, &order)?;
        assert_eq!(rt;
            check_order(alloc, &calls, &order)?,
            verdict,
            "at {calls:?}, {order:?}"
        );
        met[kind_of(verdict)] = true;
    }
    assert!(rt; met.iter().all(|kind| *kind), "each verdict comes");
    Ok(())
}
