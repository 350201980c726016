// Lines in a buffer.
ghost use Rattle.std.specs.Prelude.{◌≡◌, ◌+◌, ◌≤◌, ◌++◌, length, take, decimal};
ghost use Rattle.certify.specs.Ending.{text_of};

use crate::Verdict;
use itoa::Buffer;

/// Writes the bytes at this place, and gives the place behind them.
pub(crate) fn put(buf: &mut [u8], at: usize, bytes: &[u8]) -> usize
    requires { at + length bytes.now ≤ length buf.old }
    ensures end { result ≡ at + length bytes.now }
    ensures text { take result buf.new ≡ take at buf.old ++ bytes.now }
{
    let end = at + bytes.len();
    buf[at..end].copy_from_slice(bytes);
    end
}

/// Writes the digits of the number at this place, and gives the place behind them.
pub(crate) fn put_number(buf: &mut [u8], at: usize, number: u64) -> usize
    requires { at + 20 ≤ length buf.old }
    ensures end { result ≤ at + 20 }
    ensures text { take result buf.new ≡ take at buf.old ++ decimal number }
{
    let mut buffer = Buffer::new();
    put(buf, at, buffer.format(number).as_bytes())
}

// Writes a word, the number behind it, and the rest of the line.
fn put_parts(buf: &mut [u8; 64], word: &[u8], number: u64, rest: &[u8]) -> usize
    requires { length word.now + length rest.now ≤ 44 }
    ensures length { result ≤ 64 }
    ensures text { take result buf.new ≡ word.now ++ decimal number ++ rest.now }
{
    let mut end = put(buf, 0, word);
    end = put_number(buf, end, number);
    put(buf, end, rest)
}

impl Verdict {
    /// Writes the line that tells the verdict on so many calls to the front of the buffer, and
    /// gives the number of bytes.
    pub(crate) fn line(self, calls: u64, buf: &mut [u8; 64]) -> usize
        ensures length { result ≤ 64 }
        ensures text { take result buf.new ≡ text_of calls self }
    {
        match self {
            Verdict::Legal => put_parts(buf, b"legal ", calls, b"\n"),
            Verdict::Unknown { place } => put_parts(buf, b"place ", place, b" unknown\n"),
            Verdict::Repeated { place } => put_parts(buf, b"place ", place, b" repeated\n"),
            Verdict::Early { place } => put_parts(buf, b"place ", place, b" early\n"),
            Verdict::Wrong { place } => put_parts(buf, b"place ", place, b" answer\n"),
            Verdict::Missing { number } => put_parts(buf, b"call ", number, b" missing\n"),
        }
    }
}
