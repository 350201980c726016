// Two passes of which one resizes the table between another's steps.
ghost use Rattle.std.specs.Prelude.{◌≡◌, IfOk};
ghost use Rattle.cells.specs.Tokens.{IsPassOf, IsSamePass, fresh_pass};
ghost use Rattle.fset.specs.Seeking.{KnowsGenerationAt};
ghost use Rattle.step_core.specs.Fits.{IsWellFormed};
ghost use Rattle.step_core.specs.Plain.{HasPlainRows};

use super::*;
use fset::{find, read_row};
use step_core::{bucket_of, live_keys, row_address};

// A round of two passes that begins with the key 1.
fn begin_with_one(alloc: Global) -> Result<(Round, Pass, Pass), NoMemory>
    ensures plan { IfOk result (λ r. r.0.plan.turns ≡ 0) }
    ensures seats { IfOk result (λ r. r.0.facts.seats ≡ 2) }
    ensures first { IfOk result (λ r. r.1 ≡ fresh_pass r.0 0) }
    ensures second { IfOk result (λ r. r.2 ≡ fresh_pass r.0 1) }
{
    let (round, mut passes) = begin(alloc, 2, &[1], 4, 200)?;
    let (Some(second), Some(first)) = (passes.pop(), passes.pop()) else {
        unreachable!()
    };
    Ok((round, first, second))
}

// The words of a round of two passes as it ends.
fn ended_two(alloc: Global, round: Round, first: Pass, second: Pass) -> Result<Words, NoMemory>
    requires seats { round.facts.seats ≡ 2 }
    requires first { IsPassOf round first × (first.view.number ≡ 0) }
    requires second { IsPassOf round second × (second.view.number ≡ 1) }
    ensures well_formed { IfOk result IsWellFormed }
    ensures plain { IfOk result HasPlainRows }
{
    let mut passes = Vec::new(alloc);
    passes.push(first)?;
    passes.push(second)?;
    ended(alloc, round, passes)
}

// Whether the words begin with these.
fn has_front(words: &Words, expected: &[u64]) -> bool {
    words.as_slice().starts_with(expected)
}

// The first step of a look-up: the head's address.
fn begin_look_up(round: &Round, pass: &mut Pass) -> u64
    requires pass { IsPassOf round.now pass.old }
    ensures pass { IsSamePass pass.old pass.new }
    ensures idle { pass.new.view.flight ≡ pass.old.view.flight }
    ensures knows { KnowsGenerationAt pass.new.view result }
{
    round.load_head(pass)
}

// A bucket word as a look-up found it, and whether its row has the key.
#[derive(Clone, Copy, Debug, PartialEq, Eq)]
struct Looked {
    word: u64,
    found: bool,
}

// The steps behind it, where the key's bucket isn't nil.
fn end_look_up(round: &Round, pass: &mut Pass, head: u64, key: u64) -> Option<Looked>
    requires pass { IsPassOf round.now pass.old }
    requires knows { KnowsGenerationAt pass.old.view head }
    ensures pass { IsSamePass pass.old pass.new }
    ensures idle { pass.new.view.flight ≡ pass.old.view.flight }
{
    let exponent = round.load_sealed(pass, head);
    round.sound(pass);
    let place = head + FIRST_BUCKET + bucket_of(key, exponent as u32);
    let word = round.load_bucket(pass, place);
    if word == 0 {
        return None;
    }
    round.sound(pass);
    let row = read_row(round, pass, row_address(word));
    round.sound(pass);
    let found = find(round, pass, &row, key);
    Some(Looked { word, found })
}

// Between the reader's load of the head and that of the bucket the writer resizes the table twice and
// takes the key out. So the reader finds the opening's bucket frozen, at 7, whose row has the key still, as
// the set had it when the reader began: the answer is true. Its next call loads the head again, and is
// false. A growth that didn't freeze its buckets, or an answer from the old head, would fail here.
#[test]
fn a_stale_reader_finds_a_key_that_was_taken_out_since(rt: HostRuntime) -> Result<(), Fail> {
    let (round, mut reader, mut writer) = begin_with_one(rt.alloc())?;
    let head = begin_look_up(&round, &mut reader);
    assert_eq!(rt; head, 5);
    assert!(rt; resized(&round, &mut writer, Way::Up));
    assert!(rt; resized(&round, &mut writer, Way::Up));
    assert_eq!(rt; removed(&round, &mut writer, 1), changed(0));
    let looked = end_look_up(&round, &mut reader, head, 1);
    assert_eq!(rt;
        looked,
        Some(Looked {
            word: 17,
            found: true
        })
    );
    assert_eq!(rt; contained(&round, &mut reader, 1), Some(false));
    let words = ended_two(rt.alloc(), round, reader, writer)?;
    let expected = [
        23, 36, 0, 0, 0, 0, 0, 17, 1, 0, 0, 1, 1, 5, 32, 39, 0, 0, 0, 1, 0, 0, 1, 2, 12, 0, 66, 0,
        0, 1, 0, 0, 1, 0, 0, 0, 0,
    ];
    assert!(rt; has_front(&words, &expected));
    assert_eq!(rt; live_keys(rt.alloc(), &words)?.as_slice(), [].as_slice());
    Ok(())
}
