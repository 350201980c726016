// How far tables are resized, both ways.
ghost use Rattle.std.specs.Prelude.{◌≡◌, None, IfOk, length};
ghost use Rattle.std.specs.List.Sorted.{IsStrictlyIncreasing};
ghost use Rattle.cells.specs.Tokens.{IsPassOf, fresh_pass};

use super::*;
use step_core::live_keys;

// How many resizes are made before one is refused, of ten.
fn resizes(round: &Round, pass: &mut Pass, way: Way) -> u64
    requires pass { IsPassOf round.now pass.old }
    requires idle { pass.old.view.flight ≡ None }
    ensures pass { IsPassOf round.now pass.new × (pass.new.view.number ≡ pass.old.view.number) }
    ensures idle { pass.new.view.flight ≡ None }
{
    for made in 0..10 {
        if !resized(round, pass, way) {
            return made;
        }
    }
    10
}

// The opening has 10 words. The six growths draw 324 words for generations and rows and five for the
// keys but at the first, and the six shrinks 453 and five for the keys at each; the insert draws four.
// What is refused draws nothing.
#[test]
fn a_table_is_resized_from_one_bucket_to_sixty_four(rt: HostRuntime) -> Result<(), Fail> {
    let (round, mut pass) = begin_alone(rt.alloc(), 1000)?;
    assert_eq!(rt; resizes(&round, &mut pass, Way::Down), 0);
    for key in 1..=5 {
        assert_eq!(rt; inserted(&round, &mut pass, key), changed(key as u32));
    }
    assert_eq!(rt; resizes(&round, &mut pass, Way::Up), 6);
    assert_eq!(rt; resizes(&round, &mut pass, Way::Up), 0);
    assert_eq!(rt; resizes(&round, &mut pass, Way::Down), 6);
    assert_eq!(rt; resizes(&round, &mut pass, Way::Down), 0);
    let words = ended_alone(rt.alloc(), round, pass)?;
    assert_eq!(rt; words.as_slice().get(1), Some(&872));
    assert_eq!(rt;
        live_keys(rt.alloc(), &words)?.as_slice(),
        [1, 2, 3, 4, 5].as_slice()
    );
    Ok(())
}

// The keys from 0 on, so many.
fn first_keys(alloc: Global, count: u64) -> Result<Vec<u64>, NoMemory>
    ensures rising { IfOk result (λ keys. IsStrictlyIncreasing keys.items) }
    ensures count { IfOk result (λ keys. length keys.items ≡ count) }
{
    let mut keys = Vec::new(alloc);
    for key in 0..count {
        keys.push(key)?;
    }
    Ok(keys)
}

// A round of one pass with the keys below 300.
fn begin_with_many(alloc: Global) -> Result<(Round, Pass), NoMemory>
    ensures seats { IfOk result (λ r. r.0.facts.seats ≡ 1) }
    ensures pass { IfOk result (λ r. r.1 ≡ fresh_pass r.0 0) }
{
    let keys = first_keys(alloc, 300)?;
    let (round, mut passes) = begin(alloc, 1, &keys, 4, 1000)?;
    match passes.pop() {
        Some(pass) => Ok((round, pass)),
        None => unreachable!(),
    }
}

// 300 keys are opened with 128 buckets and 818 words. A generation of 64 has 66, and the next one 34 and
// 64 rows with all keys.
#[test]
fn a_large_table_shrinks(rt: HostRuntime) -> Result<(), Fail> {
    let (round, mut pass) = begin_with_many(rt.alloc())?;
    assert!(rt; !resized(&round, &mut pass, Way::Up));
    assert!(rt; resized(&round, &mut pass, Way::Down));
    assert!(rt; !resized(&round, &mut pass, Way::Up));
    assert!(rt; resized(&round, &mut pass, Way::Down));
    let words = ended_alone(rt.alloc(), round, pass)?;
    assert_eq!(rt; words.as_slice().get(1), Some(&1410));
    let keys = first_keys(rt.alloc(), 300)?;
    assert!(rt; live_keys(rt.alloc(), &words)?.as_slice() == keys.as_slice());
    Ok(())
}
