// The words that a round begins with.
ghost use Rattle.std.specs.Prelude.{◌≡◌, ◌+◌, ◌≤◌, ◌^◌, [], ◌∷◌, ◌++◌, length, replicate, IfOk, OnOk};
ghost use Rattle.std.specs.List.Sorted.{IsNonDecreasingBy, IsStrictlyIncreasing};
ghost use Rattle.set_model.specs.Keys.{keys_set};
ghost use Rattle.step_core.specs.Buckets.{key_bucket};
ghost use Rattle.step_core.specs.Content.{HasMembers};
ghost use Rattle.step_core.specs.Fits.{BeginsRound, IsWellFormed};
ghost use Rattle.step_core.specs.Format.{base_of, row_words};
ghost use Rattle.step_core.specs.Openings.{generation_words, opening_facts, opening_of, opening_words, rows_of};
ghost use Rattle.step_core.specs.Plain.{HasPlainRows};
ghost use Rattle.step_core.specs.Limits.{max_exponent, max_keys};

use crate::bucket_order::{bucket_end, in_bucket_order};
use crate::exponents::exponent_for;
use crate::format::mutable_word;
use crate::spots::bucket_count;
use crate::{FIRST_ANNOUNCED, FIRST_BUCKET, FIRST_KEY, Layout, Words, opening_words};
use set_model::NoMemory;
use std::alloc::Global;

/// The words of a round that begins with these keys: the fixed words, one generation, its rows, and
/// zeros up to `cap`.
pub fn opening(alloc: Global, layout: &Layout, keys: &[u64]) -> Result<Words, NoMemory>
    requires rising { IsStrictlyIncreasing keys.now }
    requires few { length keys.now ≤ max_keys }
    requires fits { opening_words layout.now.seats keys.now ≤ layout.now.cap }
    ensures words { IfOk result
        (λ words. words ≡ opening_of layout.now.seats layout.now.cap keys.now) }
    ensures well_formed { IfOk result IsWellFormed }
    ensures plain { IfOk result HasPlainRows }
    ensures members { IfOk result (λ words. HasMembers words (keys_set keys.now)) }
    ensures begins { IfOk result
        (BeginsRound (opening_facts layout.now.seats layout.now.cap keys.now)) }
{
    laid_out(alloc, layout, keys)
}

// The words alone.
fn laid_out(alloc: Global, layout: &Layout, keys: &[u64]) -> Result<Words, NoMemory>
    requires few { length keys.now ≤ max_keys }
    requires fits { opening_words layout.now.seats keys.now ≤ layout.now.cap }
    ensures { IfOk result (λ words. words ≡ opening_of layout.now.seats layout.now.cap keys.now) }
{
    let exponent = exponent_for(keys.len() as u64);
    let ordered = in_bucket_order(alloc, keys, exponent)?;
    let mut words = Vec::with_capacity(alloc, layout.cap as usize)?;
    push_fixed(&mut words, layout.seats, opening_words(layout.seats, keys))?;
    push_generation(&mut words, &ordered, exponent)?;
    push_rows(&mut words, &ordered, exponent)?;
    words.resize(layout.cap as usize, 0)?;
    Ok(Words::from_vec(words))
}

// Writes HEAD, NEXT and TICKET, and an announce word for each pass.
fn push_fixed(words: &mut Vec<u64>, seats: u32, next: u64) -> Result<(), NoMemory>
    requires { words.old.items ≡ [] }
    ensures { OnOk result (words.new.items ≡ (base_of seats ∷ next ∷ 0 ∷ []) ++ replicate seats 0) }
{
    let base = FIRST_ANNOUNCED + u64::from(seats);
    words.extend_from_slice(&[base, next, 0])?;
    words.resize(base as usize, 0)?;
    Ok(())
}

// Writes a generation behind the words, whose rows will follow it.
fn push_generation(words: &mut Vec<u64>, keys: &[u64], exponent: u32) -> Result<(), NoMemory>
    requires small { exponent ≤ max_exponent }
    requires order { IsNonDecreasingBy (key_bucket exponent) keys.now }
    requires few { length keys.now ≤ max_keys }
    requires base { length words.old.items ≤ 2 ^ 33 }
    ensures { OnOk result (words.new.items
        ≡ words.old.items ++ generation_words (length words.old.items) exponent keys.now) }
{
    let buckets = bucket_count(exponent);
    let rows = words.len() as u64 + FIRST_BUCKET + buckets;
    words.extend_from_slice(&[u64::from(exponent), 0])?;
    let mut first = 0;
    for bucket in 0..buckets {
        words.push(mutable_word(rows + FIRST_KEY * bucket + first as u64))?;
        first = bucket_end(keys, exponent, bucket, first);
    }
    Ok(())
}

// Writes the rows of all buckets behind the words.
fn push_rows(words: &mut Vec<u64>, keys: &[u64], exponent: u32) -> Result<(), NoMemory>
    requires small { exponent ≤ max_exponent }
    requires order { IsNonDecreasingBy (key_bucket exponent) keys.now }
    ensures { OnOk result
        (words.new.items ≡ words.old.items ++ rows_of exponent keys.now (2 ^ exponent)) }
{
    let buckets = bucket_count(exponent);
    let mut first = 0;
    for bucket in 0..buckets {
        let end = bucket_end(keys, exponent, bucket, first);
        push_row(words, &keys[first..end])?;
        first = end;
    }
    Ok(())
}

// Writes a row of these keys behind the words.
fn push_row(words: &mut Vec<u64>, keys: &[u64]) -> Result<(), NoMemory>
    ensures { OnOk result (words.new.items ≡ words.old.items ++ row_words keys.now) }
{
    words.extend_from_slice(&[keys.len() as u64, 0, 0])?;
    words.extend_from_slice(keys)?;
    Ok(())
}
