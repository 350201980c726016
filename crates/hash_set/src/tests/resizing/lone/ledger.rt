// What the only pass of a round can tell of it with no look at a word: which keys the set has, which
// buckets of the head are nil, and how many words were drawn. So it tells what each call answers and
// draws. With the crates that it is compared with it shares the rule by which a key has its bucket.
ghost use Rattle.std.specs.Prelude.{◌≡◌, ◌≤◌, length};
ghost use Rattle.std.specs.List.Sorted.{IsStrictlyIncreasing};
ghost use Rattle.step_core.specs.Fits.{IsWellFormed};
ghost use Rattle.step_core.specs.Limits.{max_exponent};
ghost use Rattle.step_core.specs.Plain.{HasPlainRows};

use super::*;
use set_model::{Call, PlainSet};
use step_core::{MAX_EXPONENT, bucket_of};

// What a draw is for.
#[derive(Clone, Copy, Debug, PartialEq, Eq)]
pub(super) enum Drawn {
    // A row that fills a nil bucket.
    Filling,
    // A row with one key more or less.
    Change,
    // A generation.
    Generation,
    // Nothing: it shows the first word never drawn.
    Probe,
}

// The ledger of a round.
#[derive(Drop)]
pub(super) struct Ledger {
    keys: PlainSet,
    // The exponent of the head.
    exponent: u32,
    // Which buckets of the head are nil, by their numbers.
    untouched: Vec<bool>,
    // The first word never drawn.
    next: u64,
    // The number of words.
    cap: u64,
    // The first word never drawn that a draw past the end found, and what that draw was for.
    spent: Option<(u64, Drawn)>,
    ghost small: { exponent ≤ max_exponent },
}

impl Ledger {
    // The ledger of a round that begins with these keys, and has so many words of room.
    pub(super) fn open(alloc: Global, keys: &[u64], room: u64) -> Result<Self, NoMemory>
        requires rising { IsStrictlyIncreasing keys.now }
        requires few { (length keys.now ≤ 5000) × (room ≤ 10000000) }
    {
        let count = keys.len() as u64;
        let exponent = first_exponent(count);
        let buckets = bucket_count(exponent);
        // Of one pass there are four words before the first generation. A row behind it has three beside
        // its keys.
        let next = 4 + 2 + buckets + 3 * buckets + count;
        Ok(Ledger {
            keys: PlainSet::from_sorted(Vec::from_slice(alloc, keys)?),
            exponent,
            untouched: vec![in alloc; false; buckets as usize]?,
            next,
            cap: next + room,
            spent: None,
        })
    }

    // What it comes to.
    pub(super) fn ask(&mut self, alloc: Global, asked: Asked) -> Result<Came, NoMemory> {
        match asked {
            Asked::Insert(key) => Ok(Came::Called(Some(self.write(Call::Insert, key)?))),
            Asked::Remove(key) => Ok(Came::Called(Some(self.write(Call::Remove, key)?))),
            Asked::Contains(key) => Ok(Came::Found(Some(self.keys.holds(key)))),
            Asked::Grow => Ok(Came::Resized(self.grow(alloc)?)),
            Asked::Shrink => Ok(Came::Resized(self.shrink(alloc)?)),
        }
    }

    // An insert or a remove: fills the bucket of its key, where it is nil, and draws a row with the keys
    // that are then there, where it changes them.
    fn write(&mut self, call: Call, key: u64) -> Result<Outcome, NoMemory> {
        let bucket = bucket_of(key, self.exponent);
        if self.touch(bucket).is_none() {
            return Ok(Outcome::Full);
        }
        let changed = call.answer(self.keys.holds(key));
        if changed {
            let before = self.members(bucket);
            let after = match call {
                Call::Insert => before.saturating_add(1),
                _ => before.saturating_sub(1),
            };
            if self.draw(Drawn::Change, row_len(after)).is_none() {
                return Ok(Outcome::Full);
            }
            self.keys.apply(call, key)?;
        }
        let width = self.members(bucket);
        Ok(Outcome::Done(Answered { changed, width }))
    }

    fn grow(&mut self, alloc: Global) -> Result<Resized, NoMemory> {
        if self.exponent >= MAX_EXPONENT {
            return Ok(Resized::AtLimit);
        }
        let exponent = self.exponent + 1;
        self.resize(alloc, exponent)
    }

    fn shrink(&mut self, alloc: Global) -> Result<Resized, NoMemory> {
        match self.exponent.checked_sub(1) {
            Some(exponent) => self.resize(alloc, exponent),
            None => Ok(Resized::AtLimit),
        }
    }

    // Fills each bucket that is nil, one behind the other, and then draws a generation.
    fn resize(&mut self, alloc: Global, exponent: u32) -> Result<Resized, NoMemory>
        requires small { exponent ≤ max_exponent }
    {
        for bucket in 0..bucket_count(self.exponent) {
            if self.touch(bucket).is_none() {
                return Ok(Resized::Full);
            }
        }
        let buckets = bucket_count(exponent);
        if self.draw(Drawn::Generation, 2 + buckets).is_none() {
            return Ok(Resized::Full);
        }
        self.exponent = exponent;
        self.untouched = vec![in alloc; true; buckets as usize]?;
        Ok(Resized::Changed { exponent })
    }

    // Draws a row for the bucket, where it is nil. None where that was refused.
    fn touch(&mut self, bucket: u64) -> Option<()> {
        if self.untouched.as_slice().get(bucket as usize) != Some(&true) {
            return Some(());
        }
        let members = self.members(bucket);
        self.draw(Drawn::Filling, row_len(members))?;
        if let Some(untouched) = self.untouched.as_mut_slice().get_mut(bucket as usize) {
            *untouched = false;
        }
        Some(())
    }

    // Draws so many words, and gives their place. None where a draw passed the end, this one or one
    // before; the first of them raises the first word never drawn all the same.
    pub(super) fn draw(&mut self, drawn: Drawn, len: u64) -> Option<u64> {
        if self.spent.is_some() {
            return None;
        }
        let at = self.next;
        self.next = at.saturating_add(len);
        if self.next <= self.cap {
            return Some(at);
        }
        self.spent = Some((at, drawn));
        None
    }

    // How many keys of the set are of the bucket.
    fn members(&self, bucket: u64) -> u32 {
        let mut count: u32 = 0;
        for key in self.keys.keys() {
            if bucket_of(*key, self.exponent) == bucket {
                count = count.saturating_add(1);
            }
        }
        count
    }

    // The place that a draw past the end found.
    pub(super) fn spent(&self) -> Option<u64> {
        match self.spent {
            Some((at, _)) => Some(at),
            None => None,
        }
    }

    // What that draw was for.
    pub(super) fn refused(&self) -> Option<Drawn> {
        match self.spent {
            Some((_, drawn)) => Some(drawn),
            None => None,
        }
    }

    pub(super) fn exponent(&self) -> u32 {
        self.exponent
    }

    // Whether a round that ends with these words ends so: the first word never drawn, the exponent and
    // the keys of the set are the same.
    pub(super) fn ends_with(&self, alloc: Global, words: &Words) -> Result<bool, NoMemory>
        requires well_formed { IsWellFormed words.now }
        requires plain { HasPlainRows words.now }
    {
        let keys = live_keys(alloc, words)?;
        Ok(
            words.as_slice().get(1) == Some(&self.next)
                && exponent_of(words) == self.exponent
                && keys.as_slice() == self.keys.keys(),
        )
    }
}

// The exponent of a table that begins with so many keys: the least of which each bucket has four at most,
// were they spread evenly.
fn first_exponent(count: u64) -> u32
    ensures small { result ≤ max_exponent }
{
    for exponent in 0..MAX_EXPONENT {
        if count <= 4 * bucket_count(exponent) {
            return exponent;
        }
    }
    MAX_EXPONENT
}

// The length of a row with so many keys.
fn row_len(count: u32) -> u64 {
    3 + u64::from(count)
}
