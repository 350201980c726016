// What inputs and sinks in memory share: calls that shall fail, and how many bytes a call moves.
ghost use Rattle.std.specs.Prelude.{◌≡◌, ◌+◌, ◌<◌, ◌≤◌, ◌++◌, length, take};
ghost use Rattle.outside.specs.Faults.{one_more};
ghost use Rattle.outside.specs.Script.{is_listed};

use crate::faults::one_more;

/// Counts the call, and says whether it shall fail.
pub(crate) fn is_refused(fails: &[u64], calls: &mut u64) -> bool
    ensures listed { result ≡ is_listed fails.now calls.old }
    ensures counted { calls.new ≡ one_more calls.old }
{
    let refused = fails.contains(calls);
    *calls = one_more(*calls);
    refused
}

/// Copies the front of `from` into that of `to`, at most `piece` bytes, and gives their number.
pub(crate) fn copy_front(from: &[u8], to: &mut [u8], piece: usize) -> usize
    requires { 0 < piece }
    ensures from { result ≤ length from.now }
    ensures to { result ≤ length to.new }
    ensures piece { result ≤ piece }
    ensures some { 0 < length from.now → 0 < length to.new → 0 < result }
    ensures copied { take result to.new ≡ take result from.now }
{
    let count = from.len().min(to.len()).min(piece);
    to[..count].copy_from_slice(&from[..count]);
    count
}

/// Copies the front of `from` behind what is used of the space, at most `piece` bytes, and gives
/// their number.
pub(crate) fn append_front(from: &[u8], space: &mut [u8], used: usize, piece: usize) -> usize
    requires used { used ≤ length space.old }
    requires piece { 0 < piece }
    ensures from { result ≤ length from.now }
    ensures room { used + result ≤ length space.new }
    ensures piece { result ≤ piece }
    ensures some { 0 < length from.now → used < length space.old → 0 < result }
    ensures copied { take (used + result) space.new ≡ take used space.old ++ take result from.now }
{
    copy_front(from, &mut space[used..], piece)
}
