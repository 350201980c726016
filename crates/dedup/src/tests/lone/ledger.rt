// What the only worker of a round can tell of it with no look at a word: which keys the set has, which
// buckets of the head are nil, and how many words were drawn. With the crates that it is compared with
// it shares the plain set, and the rule by which a key has its bucket.
ghost use Rattle.std.specs.Prelude.{◌≤◌};
ghost use Rattle.step_core.specs.Limits.{max_exponent};

use set_model::{Call, NoMemory, PlainSet};
use std::alloc::Global;
use step_core::{MAX_EXPONENT, bucket_count, bucket_of};

// How an insert came out: whether it was refused and whether it changed the set.
#[derive(Clone, Copy, Debug, PartialEq, Eq)]
pub(super) enum Came {
    Changed,
    There,
    Refused,
}

// The ledger of a round.
#[derive(Drop)]
pub(super) struct Ledger {
    keys: PlainSet,
    room: u64,
    // The exponent of the head.
    exponent: u32,
    // Which buckets of the head are nil, by their numbers.
    untouched: Vec<bool>,
    // How many keys of the set are of each.
    widths: Vec<u64>,
    // The first word never drawn.
    next: u64,
    // The number of words.
    cap: u64,
    // Whether a draw passed the end.
    spent: bool,
    ghost small: { exponent ≤ max_exponent },
}

impl Ledger {
    // A ledger without keys, before its first round.
    pub(super) fn new(alloc: Global, room: u64) -> Self {
        Ledger {
            keys: PlainSet::new(alloc),
            room,
            exponent: 0,
            untouched: Vec::new(alloc),
            widths: Vec::new(alloc),
            next: 0,
            cap: 0,
            spent: false,
        }
    }

    // A round begins with the keys.
    pub(super) fn open(&mut self, alloc: Global) -> Result<(), NoMemory> {
        let count = self.keys.keys().len() as u64;
        self.exponent = first_exponent(count);
        let buckets = bucket_count(self.exponent);
        self.untouched = vec![in alloc; false; buckets as usize]?;
        // Of one pass there are four words before the first generation. A row behind it has three beside
        // its keys.
        self.next = (4 + 2 + buckets + 3 * buckets).saturating_add(count);
        self.cap = self.next.saturating_add(self.room);
        self.spent = false;
        self.count_widths(alloc)
    }

    fn count_widths(&mut self, alloc: Global) -> Result<(), NoMemory> {
        let mut widths = vec![in alloc; 0u64; bucket_count(self.exponent) as usize]?;
        for key in self.keys.keys() {
            let bucket = bucket_of(*key, self.exponent);
            if let Some(width) = widths.as_mut_slice().get_mut(bucket as usize) {
                *width = width.saturating_add(1);
            }
        }
        self.widths = widths;
        Ok(())
    }

    // An insert, and the growth behind it.
    pub(super) fn insert(&mut self, alloc: Global, key: u64) -> Result<Came, NoMemory> {
        let bucket = bucket_of(key, self.exponent);
        if self.touch(bucket).is_none() {
            return Ok(Came::Refused);
        }
        if self.keys.holds(key) {
            return Ok(Came::There);
        }
        let width = self.width(bucket).saturating_add(1);
        if self.draw(width.saturating_add(3)).is_none() {
            return Ok(Came::Refused);
        }
        self.keys.apply(Call::Insert, key)?;
        if let Some(place) = self.widths.as_mut_slice().get_mut(bucket as usize) {
            *place = width;
        }
        if width > 8 {
            self.grow(alloc)?;
        }
        Ok(Came::Changed)
    }

    // Grows the table, where one of the next size takes at most a 32nd of the room.
    fn grow(&mut self, alloc: Global) -> Result<(), NoMemory> {
        if self.exponent >= MAX_EXPONENT {
            return Ok(());
        }
        let exponent = self.exponent + 1;
        if 2 + bucket_count(exponent) > self.room / 32 {
            return Ok(());
        }
        self.grow_to(alloc, exponent)
    }

    // Fills each bucket that is nil, one behind the other, and then draws a generation.
    fn grow_to(&mut self, alloc: Global, exponent: u32) -> Result<(), NoMemory>
        requires small { exponent ≤ max_exponent }
    {
        for bucket in 0..bucket_count(self.exponent) {
            if self.touch(bucket).is_none() {
                return Ok(());
            }
        }
        let buckets = bucket_count(exponent);
        if self.draw(2 + buckets).is_none() {
            return Ok(());
        }
        self.exponent = exponent;
        self.untouched = vec![in alloc; true; buckets as usize]?;
        self.count_widths(alloc)
    }

    // Draws a row for the bucket, where it is nil. None where that was refused.
    fn touch(&mut self, bucket: u64) -> Option<()> {
        if self.untouched.as_slice().get(bucket as usize) != Some(&true) {
            return Some(());
        }
        self.draw(self.width(bucket).saturating_add(3))?;
        if let Some(untouched) = self.untouched.as_mut_slice().get_mut(bucket as usize) {
            *untouched = false;
        }
        Some(())
    }

    // Draws so many words. None where a draw passed the end, this one or one before; the first of them
    // raises the first word never drawn all the same.
    fn draw(&mut self, len: u64) -> Option<()> {
        if self.spent {
            return None;
        }
        self.next = self.next.saturating_add(len);
        self.spent = self.next > self.cap;
        if self.spent { None } else { Some(()) }
    }

    // How many keys of the set are of the bucket.
    fn width(&self, bucket: u64) -> u64 {
        match self.widths.as_slice().get(bucket as usize) {
            Some(width) => *width,
            None => 0,
        }
    }

    // Settles a refused insert once the round has ended, and gives its answer.
    pub(super) fn settle(&mut self, key: u64) -> Result<bool, NoMemory> {
        self.keys.apply(Call::Insert, key)
    }

    pub(super) fn keys(&self) -> &[u64] {
        self.keys.keys()
    }

    pub(super) fn exponent(&self) -> u32 {
        self.exponent
    }

    pub(super) fn next(&self) -> u64 {
        self.next
    }
}

// The exponent of a table that begins with so many keys: the least of which each bucket has four at most,
// were they spread evenly.
fn first_exponent(count: u64) -> u32
    ensures small { result ≤ max_exponent }
{
    for exponent in 0..MAX_EXPONENT {
        if count <= 4 * bucket_count(exponent) {
            return exponent;
        }
    }
    MAX_EXPONENT
}
