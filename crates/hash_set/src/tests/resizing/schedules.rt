// Random schedules in one thread: passes take turns, in a random order, at calls, at filling buckets and
// at putting in generations. Calls that follow one another are answered as by a plain set, so each
// answer is compared with that of a plain set, and so are the keys in the end.
ghost use Rattle.std.specs.Prelude.{◌≡◌, ◌≤◌, ◌<◌, ◌+◌, ◌*◌, ◌^◌, IfOk, length, All};
ghost use Rattle.std.specs.List.Sorted.{IsStrictlyIncreasing};
ghost use Rattle.hash_set.specs.Tests.{AreIdle, IsIdle, KeepEach, Keeps};

use super::random::Random;
use super::*;
use set_model::Call;
use step_core::live_keys;

// A schedule is over so many keys.
pub(super) const KEYS: u64 = 300;

// The first of the greatest keys.
const GREATEST: u64 = u64::MAX - (KEYS - 1);

// How far keys that have one bucket are from each other.
const STRIDE: u64 = 1 << 40;

// Which keys a schedule is over.
#[derive(Clone, Copy, Debug, PartialEq, Eq)]
pub(super) enum Pattern {
    // The least numbers, which spread over the buckets.
    Least,
    // The greatest numbers.
    Greatest,
    // Multiples of 2^40, which have one bucket in each generation.
    OneBucket,
}

impl Pattern {
    pub(super) fn of_seed(seed: u64) -> Self {
        match seed % 3 {
            0 => Pattern::Least,
            1 => Pattern::Greatest,
            _ => Pattern::OneBucket,
        }
    }

    // The key at a place, from 0. The keys rise.
    pub(super) fn key(self, place: u64) -> u64
        requires { place < KEYS }
    {
        match self {
            Pattern::Least => place,
            Pattern::Greatest => GREATEST + place,
            Pattern::OneBucket => place * STRIDE,
        }
    }

    // A hundred keys, of each so many places the first.
    pub(super) fn spread(self, alloc: Global, step: u64) -> Result<Vec<u64>, NoMemory>
        requires step { (1 ≤ step) × (step ≤ 3) }
        ensures rising { IfOk result (λ keys. IsStrictlyIncreasing keys.items) }
        ensures count { IfOk result (λ keys. length keys.items ≡ 100) }
    {
        match self {
            Pattern::Least => spaced(alloc, 0, step),
            Pattern::Greatest => spaced(alloc, GREATEST, step),
            Pattern::OneBucket => spaced(alloc, 0, step * STRIDE),
        }
    }
}

// A hundred keys from the first on, so far from each other.
pub(super) fn spaced(alloc: Global, first: u64, step: u64) -> Result<Vec<u64>, NoMemory>
    requires fits { first + 99 * step < 2 ^ 64 }
    requires some { 1 ≤ step }
    ensures rising { IfOk result (λ keys. IsStrictlyIncreasing keys.items) }
    ensures count { IfOk result (λ keys. length keys.items ≡ 100) }
{
    let mut keys = Vec::new(alloc);
    for place in 0..100 {
        keys.push(first + place * step)?;
    }
    Ok(keys)
}

// What a pass does when it is its turn.
#[derive(Clone, Copy, Debug, PartialEq, Eq)]
enum Act {
    // Makes a call at a key.
    Call(Call),
    // Fills a bucket of the head.
    Fill,
    // Puts in a generation.
    Resize(Way),
}

// What is counted of a schedule.
#[derive(Clone, Copy, Debug, PartialEq, Eq)]
pub(super) struct Tally {
    // Answers, and keys in the end, that were not those of the plain set.
    pub(super) wrong: u64,
    // Calls that were refused.
    pub(super) refused: u64,
    // Generations that were put in.
    pub(super) heads: u64,
}

// A schedule that is being played, and the plain set that it is compared with.
#[derive(Clone, Copy, Debug, PartialEq, Eq)]
pub(super) struct Schedule {
    pub(super) random: Random,
    pattern: Pattern,
    // Whether the plain set has each key, by the key's place.
    present: [bool; KEYS as usize],
    // Which act changed that last, from 1, or 0.
    changed: [u64; KEYS as usize],
    // How many acts there were.
    pub(super) acts: u64,
    pub(super) tally: Tally,
}

impl Schedule {
    // The schedule of a seed, without keys.
    pub(super) fn from_seed(seed: u64) -> Self {
        Schedule {
            random: Random::from_seed(seed),
            pattern: Pattern::of_seed(seed),
            present: [false; KEYS as usize],
            changed: [0; KEYS as usize],
            acts: 0,
            tally: Tally {
                wrong: 0,
                refused: 0,
                heads: 0,
            },
        }
    }

    // The keys that it begins with: for every other seed a third of all, and else none.
    pub(super) fn opened(&mut self, alloc: Global) -> Result<Vec<u64>, NoMemory>
        ensures rising { IfOk result (λ keys. IsStrictlyIncreasing keys.items) }
        ensures few { IfOk result (λ keys. length keys.items ≤ 100) }
    {
        if self.random.below(2) == 0 {
            return Ok(Vec::new(alloc));
        }
        for (place, present) in self.present.iter_mut().enumerate() {
            *present = place % 3 == 0;
        }
        self.pattern.spread(alloc, 3)
    }

    // The place of a random key: every other time one of the first dozen, so that some change often.
    pub(super) fn place(&mut self) -> u64
        ensures { result < KEYS }
    {
        if self.random.below(2) == 0 {
            return self.random.below(12);
        }
        self.random.below(KEYS)
    }

    // The key at a place.
    pub(super) fn key(&self, place: u64) -> u64
        requires { place < KEYS }
    {
        self.pattern.key(place)
    }

    // What is done next.
    fn act(&mut self) -> Act {
        self.acts = self.acts.saturating_add(1);
        match self.random.below(20) {
            0..8 => Act::Call(Call::Insert),
            8..13 => Act::Call(Call::Remove),
            13..16 => Act::Call(Call::Contains),
            16 => Act::Fill,
            17..19 => Act::Resize(Way::Up),
            _ => Act::Resize(Way::Down),
        }
    }

    // Makes the call on the plain set too. It is wrong where that answers otherwise.
    fn compare(&mut self, call: Call, place: u64, answer: bool)
        requires { place < KEYS }
    {
        let expected = call.answer(self.present[place as usize]);
        if answer != expected {
            self.tally.wrong = self.tally.wrong.saturating_add(1);
        }
        if expected && call != Call::Contains {
            self.present[place as usize] = call == Call::Insert;
            self.changed[place as usize] = self.acts;
        }
    }

    // Whether the plain set had the key, or hadn't, at some time after so many acts.
    pub(super) fn has_been(&self, place: u64, present: bool, since: u64) -> bool
        requires { place < KEYS }
    {
        // A key that was changed since has been both.
        self.present[place as usize] == present || since < self.changed[place as usize]
    }

    // Compares the keys in the end.
    pub(super) fn compare_keys(&mut self, alloc: Global, keys: &[u64]) -> Result<(), NoMemory> {
        let mut expected = Vec::new(alloc);
        for place in 0..KEYS {
            if self.present[place as usize] {
                expected.push(self.pattern.key(place))?;
            }
        }
        if keys != expected.as_slice() {
            self.tally.wrong = self.tally.wrong.saturating_add(1);
        }
        Ok(())
    }
}

// The answer of a call, if it isn't refused.
fn answered(round: &Round, pass: &mut Pass, call: Call, key: u64) -> Option<bool>
    requires pass { IsIdle round.now pass.old }
    ensures { Keeps round.now pass.old pass.new }
{
    let outcome = match call {
        Call::Insert => inserted(round, pass, key),
        Call::Remove => removed(round, pass, key),
        Call::Contains => return contained(round, pass, key),
    };
    match outcome {
        Some(Outcome::Done(answered)) => Some(answered.changed),
        _ => None,
    }
}

// A call at a random key.
fn call_once(round: &Round, pass: &mut Pass, schedule: &mut Schedule, call: Call)
    requires pass { IsIdle round.now pass.old }
    ensures { Keeps round.now pass.old pass.new }
{
    let place = schedule.place();
    let key = schedule.key(place);
    match answered(round, pass, call, key) {
        Some(answer) => schedule.compare(call, place, answer),
        // A call that is refused leaves the set as it was.
        None => schedule.tally.refused = schedule.tally.refused.saturating_add(1),
    }
}

// Fills a bucket of the head.
fn fill_once(round: &Round, pass: &mut Pass, schedule: &mut Schedule)
    requires pass { IsIdle round.now pass.old }
    ensures { Keeps round.now pass.old pass.new }
{
    let head = find_head(round, pass);
    let bucket = schedule.random.below(bucket_count(head.exponent));
    // Where words are out, it stays nil.
    let _ = filled(round, pass, bucket);
}

// Puts in a generation, and counts it.
fn resize_once(round: &Round, pass: &mut Pass, schedule: &mut Schedule, way: Way)
    requires pass { IsIdle round.now pass.old }
    ensures { Keeps round.now pass.old pass.new }
{
    if resized(round, pass, way) {
        schedule.tally.heads = schedule.tally.heads.saturating_add(1);
    }
}

// The next act, by this pass.
fn act_once(round: &Round, pass: &mut Pass, schedule: &mut Schedule)
    requires pass { IsIdle round.now pass.old }
    ensures { Keeps round.now pass.old pass.new }
{
    match schedule.act() {
        Act::Call(call) => call_once(round, pass, schedule, call),
        Act::Fill => fill_once(round, pass, schedule),
        Act::Resize(way) => resize_once(round, pass, schedule, way),
    }
}

// So many acts, each by a random one of the passes.
pub(super) fn play(round: &Round, passes: &mut [Pass], schedule: &mut Schedule, acts: u64)
    requires passes { All (IsIdle round.now) passes.old }
    requires some { 1 ≤ length passes.old }
    ensures { KeepEach round.now passes.old passes.new }
{
    for _act in 0..acts {
        let who = schedule.random.below(passes.len() as u64);
        act_once(round, &mut passes[who as usize], schedule);
    }
}

// The same of all passes of a round.
fn play_all(round: &Round, mut passes: Vec<Pass>, schedule: &mut Schedule) -> Vec<Pass>
    requires passes { AreIdle round.now passes.items }
    requires some { 1 ≤ length passes.items }
    ensures { AreIdle round.now result.items }
{
    play(round, passes.as_mut_slice(), schedule, ACTS);
    passes
}

// How many acts there are in a schedule.
const ACTS: u64 = 100;

// What is counted of the schedule of a seed, with so many words of room.
fn tally_of(alloc: Global, seed: u64, room: u64) -> Result<Tally, NoMemory>
    requires { room ≤ 1000000 }
{
    let mut schedule = Schedule::from_seed(seed);
    let keys = schedule.opened(alloc)?;
    let seats = 2 + schedule.random.below(3);
    let (round, passes) = begin(alloc, seats as u32, keys.as_slice(), 1, room)?;
    let passes = play_all(&round, passes, &mut schedule);
    let words = ended(alloc, round, passes)?;
    let left = live_keys(alloc, &words)?;
    schedule.compare_keys(alloc, left.as_slice())?;
    Ok(schedule.tally)
}

// With room enough no call is refused, each is answered as by the plain set, and the keys of the closed
// words are those of the plain set.
#[test]
fn random_schedules_are_those_of_a_plain_set(rt: HostRuntime) -> Result<(), Fail> {
    let mut heads = 0u64;
    for seed in 0..1000 {
        let tally = tally_of(rt.alloc(), seed, 30_000)?;
        assert_eq!(rt; (tally.wrong, tally.refused), (0, 0), "{seed}");
        heads = heads.saturating_add(tally.heads);
    }
    // Else the schedules were of one generation each.
    assert!(rt; heads > 5_000, "{heads}");
    Ok(())
}

// With little room many calls are refused, and change nothing.
#[test]
fn calls_refused_in_random_schedules_change_nothing(rt: HostRuntime) -> Result<(), Fail> {
    let mut refused = 0u64;
    for seed in 0..1000 {
        let tally = tally_of(rt.alloc(), seed, 100 + seed)?;
        assert_eq!(rt; tally.wrong, 0, "{seed}");
        refused = refused.saturating_add(tally.refused);
    }
    // Else there was room enough.
    assert!(rt; refused > 5_000, "{refused}");
    Ok(())
}
