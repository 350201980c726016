// Finding the bucket of a key and its row.
ghost use Rattle.std.specs.Prelude.{◌≡◌, IfOk, OnErr, true};
ghost use Rattle.cells.specs.Lone.{EndsAlone};
ghost use Rattle.cells.specs.Tokens.{IsPassOf, IsSamePass};
ghost use Rattle.fset.specs.Alone.{EndsSeekAlone, LoadsAlone};
ghost use Rattle.fset.specs.Seeking.{
  EndsSeek,
  FindsNil,
  KnowsGenerationAt,
  LoadsBucketOf,
  LoadsKeyBucket,
};
ghost use Rattle.step_core.specs.Ledger.{touch_for};

use crate::{Seek, Seen, ensure, read_row};
use cells::{Full, Pass, Round};
use step_core::{FIRST_BUCKET, bucket_of, row_address};

/// The bucket of a key, as a pass loaded it in its open turn, and its row.
#[derive(Clone, Copy, Debug, PartialEq, Eq)]
pub struct Sought {
    /// The place of the bucket's word.
    pub place: u64,
    /// The word that was loaded there.
    pub word: u64,
    /// The row that it names.
    pub row: Seen,
}

/// Opens a turn, finds the bucket of the key in the head and reads its row, by one load of the head and
/// one of the bucket. Where it finds the bucket nil, it fills it and loads it again. Of the key the
/// row says what the set after the pass's new front says, which begins with its old one. For the only
/// pass of a round, its ledger says how this ends, and the bucket isn't frozen.
pub fn seek(round: &Round, pass: &mut Pass, key: u64) -> Seek
    requires pass { IsPassOf round.now pass.old }
    ensures pass { IsSamePass pass.old pass.new }
    ensures answer { EndsSeek key result pass.old.view pass.new.view }
    ensures ledger { pass.old.view.facts.seats ≡ 1
        → EndsSeekAlone key result pass.old.view pass.new.view }
{
    let Ok(bucket) = load_key_bucket(round, pass, key) else {
        return Seek::Full;
    };
    round.sound(pass);
    if bucket.word % 2 == 1 {
        return Seek::Frozen;
    }
    let row = read_row(round, pass, row_address(bucket.word));
    round.sound(pass);
    Seek::Found(Sought {
        place: bucket.place,
        word: bucket.word,
        row,
    })
}

// A bucket, as a pass loaded it.
#[derive(Clone, Copy, Debug, PartialEq, Eq)]
pub(crate) struct LoadedBucket {
    // The bucket, from 0.
    pub(crate) bucket: u64,
    // The place of its word.
    pub(crate) place: u64,
    // The word that was loaded there.
    pub(crate) word: u64,
}

// Opens a turn, and loads the bucket of the key in the head. Where it is nil, it is filled and loaded
// again. It is Full only where no block for the row to fill it with was to be had.
fn load_key_bucket(round: &Round, pass: &mut Pass, key: u64) -> Result<LoadedBucket, Full>
    requires pass { IsPassOf round.now pass.old }
    ensures pass { IsSamePass pass.old pass.new }
    ensures answer { IfOk result (λ bucket. LoadsKeyBucket key pass.old.view bucket pass.new.view) }
    ensures full { OnErr result (FindsNil key pass.old.view pass.new.view) }
    ensures ledger { IfOk result (λ bucket. pass.old.view.facts.seats ≡ 1
        → LoadsAlone key pass.old.view bucket pass.new.view) }
    ensures ledger_full { OnErr result
        (EndsAlone (touch_for key) true pass.old.view pass.new.view) }
{
    let head = round.load_head(pass);
    round.sound(pass);
    let bucket = load_bucket_of(round, pass, head, key);
    round.sound(pass);
    if bucket.word != 0 {
        return Ok(bucket);
    }
    let Ok(()) = ensure(round, pass, head, bucket.bucket) else {
        return Err(Full);
    };
    round.sound(pass);
    // It isn't nil now: a filled bucket is never nil again.
    let bucket = load_bucket_of(round, pass, head, key);
    round.sound(pass);
    Ok(bucket)
}

// Loads the bucket of the key in the generation at the address.
pub(crate) fn load_bucket_of(round: &Round, pass: &mut Pass, at: u64, key: u64) -> LoadedBucket
    requires pass { IsPassOf round.now pass.old }
    requires knows { KnowsGenerationAt pass.old.view at }
    ensures pass { IsSamePass pass.old pass.new }
    ensures answer { LoadsBucketOf at key pass.old.view result pass.new.view }
{
    round.sound(pass);
    let exponent = round.load_sealed(pass, at);
    round.sound(pass);
    let bucket = bucket_of(key, exponent as u32);
    let place = at + FIRST_BUCKET + bucket;
    let word = round.load_bucket(pass, place);
    LoadedBucket {
        bucket,
        place,
        word,
    }
}
