// Runs of one worker: how its table grows, and that a ledger tells what each round ends with.
use super::fixture::{NONE, Outcome, PIECES, run_sized};
use super::rooms::{Settled, lines_of, settled_calls};
use ledger::{Came, Ledger};
use std::alloc::Global;
use std::test::Fail;
use std::thread::Threads;

mod ledger;

// A run of one worker over a file with these ids, whose list is the ids.
fn run_alone(
    rt: &(impl Threads + Sync),
    alloc: Global,
    ids: &[u64],
    room: u64,
) -> Result<Outcome, Fail> {
    let file = lines_of(alloc, ids)?;
    let room = format!(in alloc; "{room}")?;
    let words = [
        "dedup",
        "--workers",
        "1",
        "--room",
        room.as_str(),
        "--list",
        "ids",
        "f",
    ];
    run_sized(rt, alloc, &words, (&file, b""), &NONE, PIECES)
}

// The numbers of a linear congruential generator (Knuth, "The Art of Computer Programming", volume 2,
// 3.3.4, line 26).
#[derive(Clone, Copy)]
struct Random {
    state: u64,
}

impl Random {
    fn below(&mut self, most: u64) -> u64 {
        self.state = self
            .state
            .wrapping_mul(6_364_136_223_846_793_005)
            .wrapping_add(1_442_695_040_888_963_407);
        match (self.state >> 33).checked_rem(most) {
            Some(number) => number,
            None => 0,
        }
    }
}

// The ids of a seed, at most 3,000: close to each other or spread over all numbers, and each as often as
// it comes. And its room, at most 20,000: little for a quarter of the seeds.
fn of_seed(alloc: Global, seed: u64) -> Result<(Vec<u64>, u64), Fail> {
    let mut random = Random {
        state: seed.wrapping_mul(0x9E37_79B9_7F4A_7C15),
    };
    let count = random.below(3001);
    let most = random.below(4000).saturating_add(1);
    let factor = if seed % 2 == 0 {
        1
    } else {
        11_400_714_819_323_198_485
    };
    let mut ids = Vec::new(alloc);
    for _ in 0..count {
        ids.push(random.below(most).wrapping_mul(factor))?;
    }
    let rooms = if seed % 4 == 3 { 1001 } else { 20_001 };
    Ok((ids, random.below(rooms)))
}

// How many rounds and how many growths there were.
#[derive(Clone, Copy, Debug, PartialEq, Eq)]
struct Tally {
    rounds: u64,
    grown: u64,
}

// The run of the seed, compared with its ledger.
fn compare(
    rt: &(impl Threads + Sync),
    alloc: Global,
    seed: u64,
    tally: &mut Tally,
) -> Result<bool, Fail> {
    let (ids, room) = of_seed(alloc, seed)?;
    let outcome = run_alone(rt, alloc, &ids, room)?;
    let mut ledger = Ledger::new(alloc, room);
    let mut settled: Vec<Settled> = Vec::new(alloc);
    let mut same = outcome.ended.status == 0;
    let mut first = 0usize;
    for (round, closing) in outcome.ended.closings.iter().enumerate() {
        ledger.open(alloc)?;
        let exponent = ledger.exponent();
        let mut refused = None;
        let mut begun = 0u64;
        for (place, id) in ids.iter().enumerate() {
            if place < first || refused.is_some() {
                continue;
            }
            if ledger.insert(alloc, *id)? == Came::Refused {
                refused = Some(*id);
            }
            begun = begun.saturating_add(1);
        }
        // A round without records isn't made.
        same = same
            && begun > 0
            && closing.keys() == ledger.keys()
            && closing.exponent() == ledger.exponent()
            && closing.next() == ledger.next();
        tally.rounds = tally.rounds.saturating_add(1);
        if ledger.exponent() > exponent {
            tally.grown = tally.grown.saturating_add(1);
        }
        if let Some(key) = refused {
            let answer = ledger.settle(key)?;
            settled.push((round, 0, begun.saturating_sub(1), key, answer))?;
        }
        first = first.saturating_add(begun as usize);
    }
    let told = settled_calls(alloc, &outcome)?;
    Ok(same && first == ids.len() && told.as_slice() == settled.as_slice())
}

// The runs of these seeds.
fn compare_all(
    rt: &(impl Threads + Sync),
    alloc: Global,
    from: u64,
    to: u64,
) -> Result<Tally, Fail> {
    let mut tally = Tally {
        rounds: 0,
        grown: 0,
    };
    for seed in from..to {
        let same = compare(rt, alloc, seed, &mut tally)?;
        if !same {
            tally.rounds = 0;
            return Ok(tally);
        }
    }
    Ok(tally)
}

#[test]
fn a_ledger_tells_the_runs_of_one_worker_of_seeds_0_to_99(rt: HostRuntime) -> Result<(), Fail> {
    let tally = compare_all(&rt, rt.alloc(), 0, 100)?;
    // Else there were no refusals, or no growths.
    assert!(rt; tally.rounds > 500 && tally.grown > 50, "{tally:?}");
    Ok(())
}

#[test]
fn a_ledger_tells_the_runs_of_one_worker_of_seeds_100_to_199(rt: HostRuntime) -> Result<(), Fail> {
    let tally = compare_all(&rt, rt.alloc(), 100, 200)?;
    assert!(rt; tally.rounds > 500 && tally.grown > 50, "{tally:?}");
    Ok(())
}

// The closings' exponents, in order.
fn exponents(alloc: Global, outcome: &Outcome) -> Result<Vec<u32>, Fail> {
    let mut exponents = Vec::new(alloc);
    for closing in &outcome.ended.closings {
        exponents.push(closing.exponent())?;
    }
    Ok(exponents)
}

// The ninth key of a bucket makes it wide.
#[test]
fn a_table_grows_after_the_ninth_key_of_a_bucket(rt: HostRuntime) -> Result<(), Fail> {
    let alloc = rt.alloc();
    let eight = run_alone(&rt, alloc, &[1, 2, 3, 4, 5, 6, 7, 8], 16_777_216)?;
    assert_eq!(rt; exponents(alloc, &eight)?.as_slice(), [0].as_slice());
    let nine = run_alone(&rt, alloc, &[1, 2, 3, 4, 5, 6, 7, 8, 9], 16_777_216)?;
    assert_eq!(rt; exponents(alloc, &nine)?.as_slice(), [1].as_slice());
    Ok(())
}

// A table of two buckets takes four words, so that it stands in a room of 128.
#[test]
fn a_table_grows_where_the_next_is_at_most_a_32nd_of_the_room(rt: HostRuntime) -> Result<(), Fail> {
    let alloc = rt.alloc();
    let few = run_alone(&rt, alloc, &[1, 2, 3, 4, 5, 6, 7, 8, 9], 127)?;
    assert_eq!(rt; exponents(alloc, &few)?.as_slice(), [0].as_slice());
    let enough = run_alone(&rt, alloc, &[1, 2, 3, 4, 5, 6, 7, 8, 9], 128)?;
    assert_eq!(rt; exponents(alloc, &enough)?.as_slice(), [1].as_slice());
    Ok(())
}

// A thousand records of 501 ids that the multiplication spreads over all numbers.
#[test]
fn a_table_grows_with_its_keys(rt: HostRuntime) -> Result<(), Fail> {
    let alloc = rt.alloc();
    let mut ids = Vec::new(alloc);
    for place in 0..1000u64 {
        ids.push((1 + place % 501).wrapping_mul(11_400_714_819_323_198_485))?;
    }
    let outcome = run_alone(&rt, alloc, &ids, 16_777_216)?;
    let exponents = exponents(alloc, &outcome)?;
    assert_eq!(rt; exponents.len(), 1);
    assert!(rt; exponents[0] >= 6, "{exponents:?}");
    Ok(())
}
