// Numbers as decimal digits.
ghost use Rattle.std.specs.Prelude.{◌≡◌, ◌+◌, ◌-◌, ◌*◌, ◌^◌, ◌<◌, ◌≤◌, true, false, length, MatchOption};
ghost use Rattle.std.specs.List.{list_all};
ghost use Rattle.std.specs.Option.{SomeIff};
ghost use Rattle.std.specs.Char.{is_ascii_digit};
ghost use Rattle.std.specs.Str.Parse.{digits_value};
ghost use Rattle.certify.specs.Line as spec;

/// The number that 1 to `most` digits write, if the text is that and the number fits.
pub(crate) fn number_in(text: &[u8], most: usize) -> Option<u64>
    requires { most ≤ 20 }
    ensures { result ≡ spec.number_in most text.now }
{
    let len = text.len();
    if len == 0 || len > most {
        return None;
    }
    let front = few_digits(&text[..len - 1])?;
    with_digit(front, text[len - 1])
}

// The number that at most 19 digits write, if the text is digits. It fits, whatever they are.
fn few_digits(text: &[u8]) -> Option<u64>
    requires { length text.now ≤ 19 }
    ensures { MatchOption result (list_all is_ascii_digit text.now ≡ false) (λ value.
        (list_all is_ascii_digit text.now ≡ true) × (value ≡ digits_value 10 text.now)) }
{
    let mut value = 0;
    for byte in text {
        if !byte.is_ascii_digit() {
            return None;
        }
        value = with_safe_digit(value, *byte);
    }
    Some(value)
}

// The value of digits with one more behind them, where any would fit.
fn with_safe_digit(value: u64, digit: u8) -> u64
    requires safe { value * 10 + 9 < 2 ^ 64 }
    requires digit { is_ascii_digit digit ≡ true }
    ensures { result ≡ value * 10 + (digit - 48) }
{
    value * 10 + u64::from(digit - b'0')
}

// The value of digits with this byte behind them, if it is a digit and the value fits.
fn with_digit(value: u64, byte: u8) -> Option<u64>
    ensures { SomeIff result
        ((is_ascii_digit byte ≡ true) × (value * 10 + (byte - 48) < 2 ^ 64))
        (value * 10 + (byte - 48)) }
{
    if !byte.is_ascii_digit() {
        return None;
    }
    value.checked_mul(10)?.checked_add(u64::from(byte - b'0'))
}
