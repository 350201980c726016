// The digits at the front of some bytes, and the number that they write.
ghost use Rattle.std.specs.Prelude.{◌≡◌, ◌+◌, ◌-◌, ◌*◌, ◌^◌, ◌<◌, ◌≤◌, true, false, length, take, slice_index};
ghost use Rattle.std.specs.List.{list_all};
ghost use Rattle.std.specs.Option.{SomeIff};
ghost use Rattle.std.specs.Char.{is_ascii_digit};
ghost use Rattle.std.specs.Str.Parse.{digits_value};
ghost use Rattle.idfiles.specs.Limits.{most_digits, safe_digits};

// The value of so many digits fits 64 bits, whatever they are.
const SAFE_DIGITS: usize = 19;

// So many bytes are judged whole, without a branch for each.
const BLOCK_DIGITS: usize = 16;

/// Digits at the front of some bytes.
#[derive(Clone, Copy)]
pub struct Digits {
    /// How many they are.
    pub count: usize,
    /// The number that they write.
    pub value: u64,
}

/// The digits at the front, as many as an id may have and as fit 64 bits.
///
/// Inlined, since a caller that knows how many bytes there are needs none of the tests on that.
#[inline(always)]
pub fn leading_digits(bytes: &[u8]) -> Digits
    ensures count { (result.count ≤ most_digits) × (result.count ≤ length bytes.now) }
    ensures digits { list_all is_ascii_digit (take result.count bytes.now) ≡ true }
    ensures value { result.value ≡ digits_value 10 (take result.count bytes.now) }
    ensures some { is_ascii_digit (slice_index bytes.now 0) ≡ true → 0 < result.count }
    ensures all { result.count < safe_digits → result.count < length bytes.now
        → is_ascii_digit (slice_index bytes.now result.count) ≡ false }
{
    let front = safe_front(bytes);
    let count = front.count;
    if count < SAFE_DIGITS || count == bytes.len() || !bytes[count].is_ascii_digit() {
        return front;
    }
    match with_digit(front.value, bytes[count]) {
        Some(value) => Digits {
            count: count + 1,
            value,
        },
        None => front,
    }
}

// The same, as many as are safe.
#[inline(always)]
fn safe_front(bytes: &[u8]) -> Digits
    ensures count { (result.count ≤ safe_digits) × (result.count ≤ length bytes.now) }
    ensures digits { list_all is_ascii_digit (take result.count bytes.now) ≡ true }
    ensures value { result.value ≡ digits_value 10 (take result.count bytes.now) }
    ensures some { is_ascii_digit (slice_index bytes.now 0) ≡ true → 0 < result.count }
    ensures all { result.count < safe_digits → result.count < length bytes.now
        → is_ascii_digit (slice_index bytes.now result.count) ≡ false }
{
    let front = &bytes[..bytes.len().min(SAFE_DIGITS)];
    if front.len() < BLOCK_DIGITS || !are_digits(&front[..BLOCK_DIGITS]) {
        return digits_behind(front, Digits { count: 0, value: 0 });
    }
    let block = Digits {
        count: BLOCK_DIGITS,
        value: value_of(&front[..BLOCK_DIGITS]),
    };
    digits_behind(front, block)
}

// All digits at the front, of which these are known.
#[inline(always)]
fn digits_behind(front: &[u8], known: Digits) -> Digits
    requires safe { length front.now ≤ safe_digits }
    requires count { known.count ≤ length front.now }
    requires digits { list_all is_ascii_digit (take known.count front.now) ≡ true }
    requires value { known.value ≡ digits_value 10 (take known.count front.now) }
    ensures count { (known.count ≤ result.count) × (result.count ≤ length front.now) }
    ensures digits { list_all is_ascii_digit (take result.count front.now) ≡ true }
    ensures value { result.value ≡ digits_value 10 (take result.count front.now) }
    ensures all { result.count < length front.now
        → is_ascii_digit (slice_index front.now result.count) ≡ false }
{
    let Digits {
        mut count,
        mut value,
    } = known;
    while count < front.len() && front[count].is_ascii_digit() {
        value = with_safe_digit(value, front[count]);
        count += 1;
    }
    Digits { count, value }
}

// Whether all bytes are digits.
fn are_digits(block: &[u8]) -> bool
    ensures { result ≡ list_all is_ascii_digit block.now }
{
    let mut all = true;
    for byte in block {
        all &= byte.is_ascii_digit();
    }
    all
}

// The number that these digits write.
fn value_of(digits: &[u8]) -> u64
    requires safe { length digits.now ≤ safe_digits }
    requires digits { list_all is_ascii_digit digits.now ≡ true }
    ensures { result ≡ digits_value 10 digits.now }
{
    let mut value = 0;
    for digit in digits {
        value = with_safe_digit(value, *digit);
    }
    value
}

// The value of digits with one more behind them, where any would fit.
fn with_safe_digit(value: u64, digit: u8) -> u64
    requires safe { value * 10 + 9 < 2 ^ 64 }
    requires digit { is_ascii_digit digit ≡ true }
    ensures { result ≡ value * 10 + (digit - 48) }
{
    value * 10 + u64::from(digit - b'0')
}

/// The value of digits with one more behind them, if it fits.
pub fn with_digit(value: u64, digit: u8) -> Option<u64>
    requires { is_ascii_digit digit ≡ true }
    ensures { SomeIff result (value * 10 + (digit - 48) < 2 ^ 64) (value * 10 + (digit - 48)) }
{
    // There any digit fits, so that one test is enough.
    if value < u64::MAX / 10 {
        return Some(with_safe_digit(value, digit));
    }
    value.checked_mul(10)?.checked_add(u64::from(digit - b'0'))
}
