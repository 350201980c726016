// How many buckets and words an opening has.
ghost use Rattle.std.specs.Prelude.{◌≡◌, ◌+◌, ◌*◌, ◌≤◌, length};
ghost use Rattle.step_core.specs.Format.{base_of};
ghost use Rattle.step_core.specs.Openings.{IsExponentFor, exponent_for, opening_words};
ghost use Rattle.step_core.specs.Limits.{max_exponent, max_keys};

use crate::spots::bucket_count;
use crate::{FIRST_ANNOUNCED, FIRST_BUCKET, FIRST_KEY, MAX_EXPONENT};

/// The number of words of an opening for so many passes with these keys. Behind them lies the
/// round's room.
pub fn opening_words(seats: u32, keys: &[u64]) -> u64
    requires { length keys.now ≤ max_keys }
    ensures len { result ≡ opening_words seats keys.now }
    ensures exponent { IsExponentFor (length keys.now) (exponent_for (length keys.now)) }
    ensures bound { result ≤ base_of seats + FIRST_BUCKET + 1 + FIRST_KEY + 3 * length keys.now }
{
    let count = keys.len() as u64;
    let buckets = bucket_count(exponent_for(count));
    FIRST_ANNOUNCED + u64::from(seats) + FIRST_BUCKET + (1 + FIRST_KEY) * buckets + count
}

/// The exponent of an opening with so many keys.
pub(crate) fn exponent_for(count: u64) -> u32
    requires { count ≤ max_keys }
    ensures exponent { result ≡ exponent_for count }
    ensures least { IsExponentFor count result }
    ensures small { result ≤ max_exponent }
{
    for exponent in 0..MAX_EXPONENT {
        if count <= 4 * bucket_count(exponent) {
            return exponent;
        }
    }
    MAX_EXPONENT
}
