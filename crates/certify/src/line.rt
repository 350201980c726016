// What the lines of a log are.
ghost use Rattle.std.specs.Prelude.{◌≡◌, MatchOption, None, Some};
ghost use Rattle.certify.specs.Line as spec;

use crate::Claimed;
use crate::number::number_in;
use crate::trim::trimmed;
use set_model::Call;

/// What a whole line of a log is.
#[derive(Clone, Copy)]
pub(crate) enum Line {
    /// It says nothing.
    Blank,
    /// It is a call with its answer.
    Claim(Claimed),
    /// It is the line `order`.
    Order,
    /// It is a number of the order.
    Number(u64),
    /// It is none of these.
    Bad,
}

/// What the line is, its LF left out.
pub(crate) fn line_of(text: &[u8]) -> Line
    ensures { result ≡ spec.line_of text.now }
{
    judged(trimmed(text))
}

fn judged(rest: &[u8]) -> Line
    ensures { result ≡ spec.judged rest.now }
{
    if rest.is_empty() {
        return Line::Blank;
    }
    if rest == b"order".as_slice() {
        return Line::Order;
    }
    if let Some(number) = number_in(rest, 20) {
        return Line::Number(number);
    }
    match claimed_in(rest) {
        Some(claimed) => Line::Claim(claimed),
        None => Line::Bad,
    }
}

fn claimed_in(text: &[u8]) -> Option<Claimed>
    ensures { result ≡ spec.claimed_in text.now }
{
    let (who, others) = split_once(text)?;
    let (asked, word) = split_once(others)?;
    claimed_by(who, asked, word)
}

fn claimed_by(who: &[u8], asked: &[u8], word: &[u8]) -> Option<Claimed>
    ensures { result ≡ spec.claimed_by who.now asked.now word.now }
{
    let who = caller_in(who)?;
    let (call, key) = asked_in(asked)?;
    let answer = answer_in(word)?;
    Some(Claimed {
        who,
        call,
        key,
        answer,
    })
}

// The parts round the first space.
fn split_once(text: &[u8]) -> Option<(&[u8], &[u8])>
    ensures { MatchOption result (spec.split_once text.now ≡ None) (λ parts.
        spec.split_once text.now ≡ Some (parts.0.now, parts.1.now)) }
{
    for (at, byte) in text.iter().enumerate() {
        if *byte == b' ' {
            return Some((&text[..at], &text[at + 1..]));
        }
    }
    None
}

fn caller_in(text: &[u8]) -> Option<u32>
    ensures { result ≡ spec.caller_in text.now }
{
    let who = number_in(text, 2)?;
    if who < 64 { Some(who as u32) } else { None }
}

fn asked_in(asked: &[u8]) -> Option<(Call, u64)>
    ensures { result ≡ spec.asked_in asked.now }
{
    let (sign, key) = asked.split_first()?;
    let call = call_in(*sign)?;
    let key = number_in(key, 20)?;
    Some((call, key))
}

fn call_in(sign: u8) -> Option<Call>
    ensures { result ≡ spec.call_in sign }
{
    match sign {
        b'+' => Some(Call::Insert),
        b'-' => Some(Call::Remove),
        b'?' => Some(Call::Contains),
        _ => None,
    }
}

fn answer_in(word: &[u8]) -> Option<bool>
    ensures { result ≡ spec.answer_in word.now }
{
    if word == b"true".as_slice() {
        return Some(true);
    }
    if word == b"false".as_slice() {
        return Some(false);
    }
    None
}
