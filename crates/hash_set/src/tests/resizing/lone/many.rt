// Random calls in one round behind the other, each of which comes to what its ledger tells. After each
// call a draw of one word shows the first word never drawn.
ghost use Rattle.std.specs.Prelude.{◌≡◌, ◌≤◌, ◌<◌, IfOk, length};
ghost use Rattle.std.specs.List.Sorted.{IsStrictlyIncreasing};
ghost use Rattle.hash_set.specs.Tests.{IsIdle, Keeps};

use super::super::random::Random;
use super::super::schedules::Pattern;
use super::ledger::{Drawn, Ledger};
use super::*;
use std::ops::Range;

// The calls are at so many keys.
const KEYS: u64 = 200;

// The rounds of a seed.
const SEEDS: u64 = 20;

// What is counted of rounds.
#[derive(Clone, Copy, Debug, PartialEq, Eq)]
struct Tally {
    // How many calls there were.
    calls: u64,
    // What the ledger told otherwise.
    wrong: u64,
    // How many passes were spent by a draw of an insert, a remove, a growth and a shrinking: to fill a
    // bucket, and after that.
    spent: [[u64; 2]; 4],
}

impl Tally {
    const ZERO: Tally = Tally {
        calls: 0,
        wrong: 0,
        spent: [[0; 2]; 4],
    };

    // What was told, and whether it was so.
    fn compare(&mut self, same: bool) {
        if !same {
            self.wrong = self.wrong.saturating_add(1);
        }
    }

    // A pass was spent by this draw of the call.
    fn count(&mut self, asked: Asked, drawn: Drawn) {
        let call = match asked {
            Asked::Insert(_) => 0,
            Asked::Remove(_) => 1,
            Asked::Grow => 2,
            Asked::Shrink => 3,
            // It draws nothing.
            Asked::Contains(_) => return self.compare(false),
        };
        let place = if drawn == Drawn::Filling { 0 } else { 1 };
        self.spent[call][place] = self.spent[call][place].saturating_add(1);
    }
}

// The rounds of a seed, as they are played.
#[derive(Clone, Copy, Debug, PartialEq, Eq)]
struct Rounds {
    random: Random,
    pattern: Pattern,
    tally: Tally,
}

impl Rounds {
    fn from_seed(seed: u64) -> Self {
        Rounds {
            random: Random::from_seed(seed),
            pattern: Pattern::of_seed(seed),
            tally: Tally::ZERO,
        }
    }

    // The keys that a round begins with: every second one, or none.
    fn opened(&mut self, alloc: Global) -> Result<Vec<u64>, NoMemory>
        ensures rising { IfOk result (λ keys. IsStrictlyIncreasing keys.items) }
        ensures few { IfOk result (λ keys. length keys.items ≤ 100) }
    {
        if self.random.below(2) == 0 {
            return Ok(Vec::new(alloc));
        }
        self.pattern.spread(alloc, 2)
    }

    // The call that comes next at a table of this exponent. A growth is as likely as a shrinking.
    fn next(&mut self, exponent: u32) -> Asked {
        let place = self.random.below(KEYS);
        let key = self.pattern.key(place);
        match self.random.below(24) {
            0..9 => Asked::Insert(key),
            9..16 => Asked::Remove(key),
            16..20 => Asked::Contains(key),
            20..22 if exponent < MOST => Asked::Grow,
            _ => Asked::Shrink,
        }
    }
}

// The first word never drawn, by a draw of it. None where the pass is spent.
fn probe(round: &Round, pass: &mut Pass) -> Option<u64>
    requires pass { IsIdle round.now pass.old }
    ensures { Keeps round.now pass.old pass.new }
{
    match round.draw(pass, 1) {
        Ok(block) => Some(block.at()),
        Err(_) => None,
    }
}

// The next call, and what the ledger tells of it.
fn ask_once(
    alloc: Global,
    round: &Round,
    pass: &mut Pass,
    ledger: &mut Ledger,
    rounds: &mut Rounds,
) -> Result<(), NoMemory>
    requires pass { IsIdle round.now pass.old }
    ensures { Keeps round.now pass.old pass.new }
{
    let asked = rounds.next(ledger.exponent());
    let came = ask(round, pass, asked);
    let unspent = ledger.spent().is_none();
    let told = ledger.ask(alloc, asked)?;
    let tally = &mut rounds.tally;
    tally.calls = tally.calls.saturating_add(1);
    tally.compare(came == told && pass.spent() == ledger.spent());
    if let Some(drawn) = ledger.refused() {
        if unspent {
            tally.count(asked, drawn);
        }
    }
    let at = probe(round, pass);
    tally.compare(at == ledger.draw(Drawn::Probe, 1));
    Ok(())
}

// How many calls a round has, and how many of them when its pass is spent.
#[derive(Clone, Copy, Debug, PartialEq, Eq)]
struct Most {
    calls: u64,
    spent: u64,
}

// So many calls.
fn ask_many(
    alloc: Global,
    round: &Round,
    pass: &mut Pass,
    ledger: &mut Ledger,
    rounds: &mut Rounds,
    most: Most,
) -> Result<(), NoMemory>
    requires pass { IsIdle round.now pass.old }
    ensures { Keeps round.now pass.old pass.new }
{
    let mut left = most.spent;
    for _call in 0..most.calls {
        if left == 0 {
            return Ok(());
        }
        ask_once(alloc, round, pass, ledger, rounds)?;
        if pass.spent().is_some() {
            left -= 1;
        }
    }
    Ok(())
}

// A round with so much room.
fn play_round(alloc: Global, rounds: &mut Rounds, room: u64, most: Most) -> Result<(), NoMemory>
    requires { room ≤ 10000000 }
{
    let keys = rounds.opened(alloc)?;
    let (round, mut pass) = begin_with(alloc, keys.as_slice(), room)?;
    let mut ledger = Ledger::open(alloc, keys.as_slice(), room)?;
    ask_many(alloc, &round, &mut pass, &mut ledger, rounds, most)?;
    let words = ended_alone(alloc, round, pass)?;
    let same = ledger.ends_with(alloc, &words)?;
    rounds.tally.compare(same);
    Ok(())
}

// The rooms from 0 to 299, so that the words are out at each draw of each call.
#[test]
fn in_little_room_the_ledger_tells_what_random_calls_come_to(rt: HostRuntime) -> Result<(), Fail> {
    let most = Most {
        calls: 200,
        spent: 20,
    };
    let mut calls = 0u64;
    let mut spent = [[0u64; 2]; 4];
    for seed in 0..SEEDS {
        let mut rounds = Rounds::from_seed(seed);
        for room in 0..300 {
            play_round(rt.alloc(), &mut rounds, room, most)?;
        }
        assert_eq!(rt; rounds.tally.wrong, 0, "seed {seed}");
        calls = calls.saturating_add(rounds.tally.calls);
        for call in 0..4 {
            for place in 0..2 {
                spent[call][place] = spent[call][place].saturating_add(
                    rounds.tally.spent[call][place],
                );
            }
        }
    }
    // Else the words weren't out everywhere.
    for call in 0..4 {
        for place in 0..2 {
            assert!(rt; spent[call][place] > 20, "{spent:?}");
        }
    }
    assert!(rt; calls > 200_000, "{calls}");
    Ok(())
}

// Ten thousand calls in a round of each of these seeds, of which the first have too little room and the
// last enough: in how many of them the ledger told all.
fn rounds_told(alloc: Global, seeds: Range<u64>) -> Result<u64, NoMemory> {
    let most = Most {
        calls: 10_000,
        spent: 10_000,
    };
    let mut told: u64 = 0;
    for seed in seeds.start..seeds.end.min(SEEDS) {
        let mut rounds = Rounds::from_seed(seed);
        let room = 50_000 * (seed + 1);
        play_round(alloc, &mut rounds, room, most)?;
        if (rounds.tally.calls, rounds.tally.wrong) == (10_000, 0) {
            told = told.saturating_add(1);
        }
    }
    Ok(told)
}

#[test]
fn the_ledger_tells_what_ten_thousand_random_calls_come_to(rt: HostRuntime) -> Result<(), Fail> {
    assert_eq!(rt; rounds_told(rt.alloc(), 0..5)?, 5);
    Ok(())
}

#[test]
fn it_tells_so_of_the_next_five_seeds(rt: HostRuntime) -> Result<(), Fail> {
    assert_eq!(rt; rounds_told(rt.alloc(), 5..10)?, 5);
    Ok(())
}

#[test]
fn it_tells_so_of_five_more_seeds(rt: HostRuntime) -> Result<(), Fail> {
    assert_eq!(rt; rounds_told(rt.alloc(), 10..15)?, 5);
    Ok(())
}

#[test]
fn it_tells_so_of_the_last_five_seeds(rt: HostRuntime) -> Result<(), Fail> {
    assert_eq!(rt; rounds_told(rt.alloc(), 15..20)?, 5);
    Ok(())
}
