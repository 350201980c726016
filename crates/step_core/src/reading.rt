ghost use Rattle.std.specs.Prelude.{◌≡◌, ◌≤◌, ◌<◌, ◌+◌, ◌^◌, ◌++◌, length, slice_index, IfOk, OnOk};
ghost use Rattle.std.specs.List.Sorted.{IsStrictlyIncreasing};
ghost use Rattle.set_model.specs.Keys.{keys_set};
ghost use Rattle.step_core.specs.Buckets.{class_keys};
ghost use Rattle.step_core.specs.Content.{HasMembers, bucket_word, exponent_of, live_generation, live_word, row_keys};
ghost use Rattle.step_core.specs.Fits.{IsWellFormed};
ghost use Rattle.step_core.specs.Format.{row_address};
ghost use Rattle.step_core.specs.Plain.{HasPlainRows, all_live_keys, finest_exponent, live_class_keys};
ghost use Rattle.step_core.specs.Limits.{max_exponent};

use crate::format::row_address;
use crate::spots::{bucket_count, bucket_of};
use crate::{FIRST_BUCKET, FIRST_KEY, HEAD, Words};
use set_model::NoMemory;
use std::alloc::Global;

/// The members of the words, each once, rising. A bucket of the head that is nil is read in the
/// predecessor. So far of words whose live rows have no operations.
pub fn live_keys(alloc: Global, words: &Words) -> Result<Vec<u64>, NoMemory>
    requires well_formed { IsWellFormed words.now }
    requires plain { HasPlainRows words.now }
    ensures members { IfOk result (λ keys. HasMembers words.now (keys_set keys.items)) }
    ensures rising { IfOk result (λ keys. IsStrictlyIncreasing keys.items) }
{
    let mut keys = collected(alloc, words)?;
    keys.sort_unstable();
    Ok(keys)
}

// The keys of the live rows, class by class.
fn collected(alloc: Global, words: &Words) -> Result<Vec<u64>, NoMemory>
    requires { IsWellFormed words.now }
    ensures { IfOk result (λ keys. keys.items ≡ all_live_keys words.now) }
{
    let exponent = finest_exponent(words);
    let classes = bucket_count(exponent);
    let mut keys = Vec::with_capacity(alloc, key_count(words) as usize)?;
    for class in 0..classes {
        push_class(&mut keys, words, class, exponent)?;
    }
    Ok(keys)
}

// Their number.
fn key_count(words: &Words) -> u64
    requires { IsWellFormed words.now }
    ensures { result ≡ length (all_live_keys words.now) }
{
    // With the words' number read, that of their keys is known to fit 64 bits.
    let _len = words.len();
    let exponent = finest_exponent(words);
    let mut count = 0;
    for class in 0..bucket_count(exponent) {
        count += class_count(words, class, exponent);
    }
    count
}

// Adds the keys of the class in its live row: all keys of the row, where its generation has a bucket
// for each class.
fn push_class(keys: &mut Vec<u64>, words: &Words, class: u64, exponent: u32) -> Result<(), NoMemory>
    requires well_formed { IsWellFormed words.now }
    requires exponent { exponent ≡ finest_exponent words.now }
    requires class { class < 2 ^ exponent }
    ensures { OnOk result
        (keys.new.items ≡ keys.old.items ++ live_class_keys words.now class) }
{
    let generation = live_generation(words, class);
    let row = keys_in_bucket(words, generation, class);
    if words.word(generation) == u64::from(exponent) {
        keys.extend_from_slice(row)?;
        return Ok(());
    }
    push_part(keys, row, class, exponent)
}

// The number of the keys of the class in its live row.
fn class_count(words: &Words, class: u64, exponent: u32) -> u64
    requires well_formed { IsWellFormed words.now }
    requires exponent { exponent ≡ finest_exponent words.now }
    requires class { class < 2 ^ exponent }
    ensures { result ≡ length (live_class_keys words.now class) }
{
    let generation = live_generation(words, class);
    let row = keys_in_bucket(words, generation, class);
    if words.word(generation) == u64::from(exponent) {
        return row.len() as u64;
    }
    part_count(row, class, exponent)
}

// Adds those of the keys that are of the class.
fn push_part(keys: &mut Vec<u64>, row: &[u64], class: u64, exponent: u32) -> Result<(), NoMemory>
    requires { exponent ≤ max_exponent }
    ensures { OnOk result
        (keys.new.items ≡ keys.old.items ++ class_keys exponent class row.now) }
{
    for key in row {
        if bucket_of(*key, exponent) == class {
            keys.push(*key)?;
        }
    }
    Ok(())
}

// Their number.
fn part_count(row: &[u64], class: u64, exponent: u32) -> u64
    requires { exponent ≤ max_exponent }
    ensures { result ≡ length (class_keys exponent class row.now) }
{
    let mut count = 0;
    for key in row {
        if bucket_of(*key, exponent) == class {
            count += 1;
        }
    }
    count
}

/// The exponent of the head generation.
#[tactic(auto, using(crate::proofs::seen::Head::head_shown))]
pub fn exponent_of(words: &Words) -> u32
    requires { IsWellFormed words.now }
    ensures exponent { result ≡ exponent_of words.now }
    ensures small { result ≤ max_exponent }
{
    let _len = words.len();
    words.word(words.word(HEAD)) as u32
}

// The greater exponent of the head and its predecessor, if it has one.
#[tactic(auto, using(crate::proofs::seen::Head::head_shown, crate::proofs::seen::Predecessor::predecessor_shown))]
fn finest_exponent(words: &Words) -> u32
    requires { IsWellFormed words.now }
    ensures exponent { result ≡ finest_exponent words.now }
    ensures small { result ≤ max_exponent }
{
    let _len = words.len();
    let exponent = exponent_of(words);
    let predecessor = words.word(words.word(HEAD) + 1);
    if predecessor == 0 {
        return exponent;
    }
    exponent.max(words.word(predecessor) as u32)
}

// The generation where a key of the spot is looked for.
#[tactic(auto, using(crate::proofs::seen::Head::head_shown))]
fn live_generation(words: &Words, spot: u64) -> u64
    requires { IsWellFormed words.now }
    ensures { result ≡ live_generation words.now spot }
{
    let _len = words.len();
    let head = words.word(HEAD);
    if bucket_word(words, head, spot) == 0 {
        return words.word(head + 1);
    }
    head
}

// The word of the spot's bucket in the generation.
#[tactic(auto, using(crate::proofs::seen::Spots::masks, crate::proofs::seen::Predecessor::bucket_within))]
fn bucket_word(words: &Words, generation: u64, spot: u64) -> u64
    requires small { slice_index words.now generation ≤ max_exponent }
    requires within { generation + FIRST_BUCKET + 2 ^ slice_index words.now generation
        ≤ length words.now }
    ensures { result ≡ bucket_word words.now generation spot }
{
    // With the words' number read, their places are known to fit 64 bits.
    let _len = words.len();
    let exponent = words.word(generation) as u32;
    words.word(generation + FIRST_BUCKET + (spot & (bucket_count(exponent) - 1)))
}

// The keys of the row in the spot's bucket of the generation where its keys are looked for.
#[tactic(auto, using(crate::proofs::tables::Live::live_row_shown))]
fn keys_in_bucket(words: &Words, generation: u64, spot: u64) -> &[u64]
    requires well_formed { IsWellFormed words.now }
    requires generation { generation ≡ live_generation words.now spot }
    ensures { result.now ≡ row_keys words.now (row_address (live_word words.now spot)) }
{
    let _len = words.len();
    let row = row_address(bucket_word(words, generation, spot));
    words.part(row + FIRST_KEY, words.word(row))
}
