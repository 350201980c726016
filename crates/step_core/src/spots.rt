// A key's spot, and its bucket among a power of two.
ghost use Rattle.std.specs.Prelude.{◌≡◌, ◌≤◌, ◌^◌};
ghost use Rattle.step_core.specs.Content.{spot_of, bucket_of};
ghost use Rattle.step_core.specs.Limits.{max_exponent};

use crate::SPOT_FACTOR;

/// The spot of a key, by which every generation finds the key's bucket: the upper 32 of the 64 bits
/// that the key times `SPOT_FACTOR` is kept to.
pub fn spot(key: u64) -> u32
    ensures { result ≡ spot_of key }
{
    (key.wrapping_mul(SPOT_FACTOR) >> 32) as u32
}

/// The number of buckets of a generation of this exponent, which is at most 24.
#[tactic(auto, using(crate::proofs::seen::Spots::sizes))]
pub fn bucket_count(exponent: u32) -> u64
    requires { exponent ≤ max_exponent }
    ensures count { result ≡ 2 ^ exponent }
    ensures small { 2 ^ exponent ≤ 2 ^ max_exponent }
{
    1 << exponent
}

/// The bucket of the key, counted from 0, in a generation of this exponent.
#[tactic(auto, using(crate::proofs::seen::Spots::masks))]
pub fn bucket_of(key: u64, exponent: u32) -> u64
    requires { exponent ≤ max_exponent }
    ensures { result ≡ bucket_of exponent (spot_of key) }
{
    u64::from(spot(key)) & (bucket_count(exponent) - 1)
}
