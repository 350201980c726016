// Look-ups that take long, in one thread: between their steps the other passes make random calls, fill
// buckets, and put in generations. Each answer has to be that of the plain set at some time since the
// look-up loaded the head.
ghost use Rattle.std.specs.Prelude.{◌≡◌, ◌≤◌, ◌<◌, IfOk, length, All};
ghost use Rattle.cells.specs.Ends.{AreAllPasses};
ghost use Rattle.cells.specs.Tokens.{IsPassOf, IsSamePass};
ghost use Rattle.fset.specs.Looking.{MeetsRow};
ghost use Rattle.fset.specs.Seeking.{KnowsGenerationAt, LoadsBucketOf};
ghost use Rattle.fset.specs.Seen.{KnowsRowAt};
ghost use Rattle.hash_set.specs.Tests.{AreIdle, IsIdle, KeepEach, Keeps};

use super::schedules::{Schedule, play};
use super::*;
use fset::{find, read_row};
use step_core::{bucket_of, live_keys, predecessor_place, row_address};

// How many look-ups there are in a schedule.
const LOOKS: u64 = 15;

// What is counted of them.
#[derive(Clone, Copy, Debug, PartialEq, Eq)]
struct Looks {
    // Answers that were those of the plain set at no time since the look-up began.
    wrong: u64,
    // Look-ups that found the key's bucket nil, and went on in the generation before.
    before: u64,
    // Look-ups that ended when another generation was the head.
    stale: u64,
}

// The row that a look-up has met.
#[derive(Clone, Copy, Debug, PartialEq, Eq)]
struct Met {
    // The address of the row.
    at: u64,
    // Whether the bucket was nil in the head.
    before: bool,
}

// A key's bucket, as a pass loaded it.
#[derive(Clone, Copy, Debug, PartialEq, Eq)]
struct KeyBucket {
    // The bucket, from 0.
    bucket: u64,
    // The place of its word.
    place: u64,
    // The word that was loaded there.
    word: u64,
}

// Loads the bucket of the key in the generation at the address.
fn load_key_bucket(round: &Round, pass: &mut Pass, at: u64, key: u64) -> KeyBucket
    requires pass { IsPassOf round.now pass.old }
    requires knows { KnowsGenerationAt pass.old.view at }
    ensures pass { IsSamePass pass.old pass.new }
    ensures answer { LoadsBucketOf at key pass.old.view
        (record { bucket = result.bucket; place = result.place; word = result.word })
        pass.new.view }
{
    round.sound(pass);
    let exponent = round.load_sealed(pass, at);
    round.sound(pass);
    let bucket = bucket_of(key, exponent as u32);
    let place = at + FIRST_BUCKET + bucket;
    let word = round.load_bucket(pass, place);
    KeyBucket {
        bucket,
        place,
        word,
    }
}

// The others make up to three acts.
fn go_on(round: &Round, others: &mut [Pass], schedule: &mut Schedule)
    requires others { All (IsIdle round.now) others.old }
    requires some { 1 ≤ length others.old }
    ensures { KeepEach round.now others.old others.new }
{
    let acts = schedule.random.below(4);
    play(round, others, schedule, acts);
}

// The row of the key's bucket in the head that the reader loaded or, where that is nil, in the generation
// before. The others go on before each load of a bucket.
fn meet_row(
    round: &Round,
    reader: &mut Pass,
    others: &mut [Pass],
    schedule: &mut Schedule,
    head: u64,
    key: u64,
) -> Met
    requires reader { IsPassOf round.now reader.old }
    requires knows { KnowsGenerationAt reader.old.view head }
    requires others { All (IsIdle round.now) others.old }
    requires some { 1 ≤ length others.old }
    ensures reader { IsSamePass reader.old reader.new }
    ensures answer { MeetsRow head key reader.old.view result.at reader.new.view }
    ensures others { KeepEach round.now others.old others.new }
{
    go_on(round, others, schedule);
    round.sound(reader);
    let bucket = load_key_bucket(round, reader, head, key);
    if bucket.word != 0 {
        return Met {
            at: row_address(bucket.word),
            before: false,
        };
    }
    let predecessor = round.load_sealed(reader, predecessor_place(head));
    go_on(round, others, schedule);
    let bucket = load_key_bucket(round, reader, predecessor, key);
    Met {
        at: row_address(bucket.word),
        before: true,
    }
}

// Whether the row has the key. The others go on before it is read, and then again.
fn find_in(
    round: &Round,
    reader: &mut Pass,
    others: &mut [Pass],
    schedule: &mut Schedule,
    at: u64,
    key: u64,
) -> bool
    requires reader { IsPassOf round.now reader.old }
    requires knows { KnowsRowAt reader.old.view at }
    requires others { All (IsIdle round.now) others.old }
    requires some { 1 ≤ length others.old }
    ensures reader { IsSamePass reader.old reader.new }
    ensures others { KeepEach round.now others.old others.new }
{
    go_on(round, others, schedule);
    let row = read_row(round, reader, at);
    go_on(round, others, schedule);
    find(round, reader, &row, key)
}

// Looks a random key up, as `contains` does.
fn look(
    round: &Round,
    reader: &mut Pass,
    others: &mut [Pass],
    schedule: &mut Schedule,
    looks: &mut Looks,
)
    requires reader { IsPassOf round.now reader.old }
    requires others { All (IsIdle round.now) others.old }
    requires some { 1 ≤ length others.old }
    ensures reader { IsSamePass reader.old reader.new }
    ensures others { KeepEach round.now others.old others.new }
{
    let place = schedule.place();
    let key = schedule.key(place);
    let (since, heads) = (schedule.acts, schedule.tally.heads);
    let head = round.load_head(reader);
    round.sound(reader);
    let met = meet_row(round, reader, others, schedule, head, key);
    let answer = find_in(round, reader, others, schedule, met.at, key);
    if !schedule.has_been(place, answer, since) {
        looks.wrong = looks.wrong.saturating_add(1);
    }
    looks.before = looks.before.saturating_add(u64::from(met.before));
    looks.stale = looks
        .stale
        .saturating_add(u64::from(heads != schedule.tally.heads));
}

// The look-ups of a schedule.
fn look_often(
    round: &Round,
    reader: &mut Pass,
    others: &mut [Pass],
    schedule: &mut Schedule,
) -> Looks
    requires reader { IsPassOf round.now reader.old }
    requires others { All (IsIdle round.now) others.old }
    requires some { 1 ≤ length others.old }
    ensures reader { IsSamePass reader.old reader.new }
    ensures others { KeepEach round.now others.old others.new }
{
    let mut looks = Looks {
        wrong: 0,
        before: 0,
        stale: 0,
    };
    for _look in 0..LOOKS {
        look(round, reader, others, schedule, &mut looks);
    }
    looks
}

// The passes of a round, once the last of them has made the look-ups of a schedule, and what is counted.
fn look_beside(
    round: &Round,
    mut passes: Vec<Pass>,
    schedule: &mut Schedule,
) -> Result<(Vec<Pass>, Looks), NoMemory>
    requires passes { AreIdle round.now passes.items }
    requires some { 2 ≤ length passes.items }
    ensures { IfOk result (λ left. AreAllPasses round.now left.0.items) }
{
    let Some(mut reader) = passes.pop() else {
        unreachable!()
    };
    let looks = look_often(round, &mut reader, passes.as_mut_slice(), schedule);
    passes.push(reader)?;
    Ok((passes, looks))
}

// What is counted of the look-ups in the schedule of a seed.
fn looks_of(alloc: Global, seed: u64) -> Result<Looks, NoMemory> {
    let mut schedule = Schedule::from_seed(seed);
    let keys = schedule.opened(alloc)?;
    let seats = 3 + schedule.random.below(2);
    let (round, passes) = begin(alloc, seats as u32, keys.as_slice(), 1, 30_000)?;
    let (passes, mut looks) = look_beside(&round, passes, &mut schedule)?;
    let words = ended(alloc, round, passes)?;
    let left = live_keys(alloc, &words)?;
    schedule.compare_keys(alloc, left.as_slice())?;
    looks.wrong = looks.wrong.saturating_add(schedule.tally.wrong);
    Ok(looks)
}

// A look-up that says false of a key whose bucket is nil in the head, or reads the bucket of another
// generation's number, would fail here.
#[test]
fn slow_look_ups_agree_with_the_set_meanwhile(rt: HostRuntime) -> Result<(), Fail> {
    let (mut before, mut stale) = (0u64, 0u64);
    for seed in 0..1000 {
        let looks = looks_of(rt.alloc(), seed)?;
        assert_eq!(rt; looks.wrong, 0, "{seed}");
        before = before.saturating_add(looks.before);
        stale = stale.saturating_add(looks.stale);
    }
    // Else few of them were slow.
    assert!(rt; before > 1_000 && stale > 1_000, "{before} {stale}");
    Ok(())
}
