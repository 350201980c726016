// Lines that are printed, each into a buffer that any of them fits.
ghost use Rattle.std.specs.Prelude.{◌≡◌, ◌+◌, ◌≤◌, ◌++◌, length, take, decimal};
ghost use Rattle.idfiles.specs.Limits.{most_digits};
ghost use Rattle.idfiles.specs.Print as spec;

use itoa::Buffer;

// Writes the bytes at this place, and gives the place behind them.
fn put(buf: &mut [u8], at: usize, bytes: &[u8]) -> usize
    requires { at + length bytes.now ≤ length buf.old }
    ensures end { result ≡ at + length bytes.now }
    ensures text { take result buf.new ≡ take at buf.old ++ bytes.now }
{
    let end = at + bytes.len();
    buf[at..end].copy_from_slice(bytes);
    end
}

// Writes the digits of the number at this place, and gives the place behind them.
fn put_number(buf: &mut [u8], at: usize, number: u64) -> usize
    requires { at + most_digits ≤ length buf.old }
    ensures end { result ≤ at + most_digits }
    ensures text { take result buf.new ≡ take at buf.old ++ decimal number }
{
    let mut buffer = Buffer::new();
    put(buf, at, buffer.format(number).as_bytes())
}

/// Writes `ID FILE:LINE` and LF to the front of the buffer, and gives the number of bytes.
pub fn keep_line(id: u64, file: u32, line: u64, buf: &mut [u8; 64]) -> usize
    ensures length { result ≤ 64 }
    ensures text { take result buf.new ≡ spec.keep_line id file line }
{
    let mut end = put_number(buf, 0, id);
    end = put(buf, end, b" ");
    end = put_number(buf, end, u64::from(file));
    end = put(buf, end, b":");
    end = put_number(buf, end, line);
    put(buf, end, b"\n")
}

/// Writes `ID` and LF to the front of the buffer, and gives the number of bytes.
pub fn id_line(id: u64, buf: &mut [u8; 64]) -> usize
    ensures length { result ≤ 64 }
    ensures text { take result buf.new ≡ spec.id_line id }
{
    let end = put_number(buf, 0, id);
    put(buf, end, b"\n")
}

/// Writes `records R distinct D` and LF to the front of the buffer, and gives the number of bytes.
pub fn count_line(records: u64, distinct: u64, buf: &mut [u8; 64]) -> usize
    ensures length { result ≤ 64 }
    ensures text { take result buf.new ≡ spec.count_line records distinct }
{
    let mut end = put(buf, 0, b"records ");
    end = put_number(buf, end, records);
    end = put(buf, end, b" distinct ");
    end = put_number(buf, end, distinct);
    put(buf, end, b"\n")
}
