ghost use Rattle.std.specs.Prelude.{◌≡◌, ◌≤◌};
ghost use Rattle.step_core.specs.Limits.{max_passes};

use super::*;
use std::test::Fail;

fn begin_and_end(alloc: Global, seats: u32) -> Result<Words, NoMemory>
    requires { (1 ≤ seats) × (seats ≤ max_passes) }
{
    let (round, passes) = begin(alloc, seats, &[1, 2, 3, 4, 5], 12)?;
    ended(alloc, round, passes)
}

// Each pass is given by its number, and the words come back as they were.
#[test]
fn a_round_without_steps_ends_with_its_first_words(rt: HostRuntime) -> Result<(), Fail> {
    for seats in [1, 2, 64] {
        let words = begin_and_end(rt.alloc(), seats)?;
        let layout = Layout {
            seats,
            cap: opening_words(seats, &[1, 2, 3, 4, 5]) + 12,
        };
        let first = opening(rt.alloc(), &layout, &[1, 2, 3, 4, 5])?;
        assert_eq!(rt; words.as_slice(), first.as_slice());
    }
    Ok(())
}

#[test]
fn the_passes_of_a_round_come_by_number(rt: HostRuntime) -> Result<(), Fail> {
    let (round, passes) = begin(rt.alloc(), 64, &[], 0)?;
    assert_eq!(rt; passes.len(), 64);
    for (number, pass) in passes.iter().enumerate() {
        assert_eq!(rt; pass.number() as usize, number);
        assert_eq!(rt; pass.calls(), 0);
        assert_eq!(rt; pass.spent(), None);
    }
    assert!(rt; round.layout().seats == 64 && round.plan().room == 0);
    Ok(())
}

fn is_shared<T: Send + Sync>(value: T) -> T
    ensures { result ≡ value }
{
    value
}

fn is_sent<T: Send>(value: T) -> T
    ensures { result ≡ value }
{
    value
}

// That these calls are accepted shows it: the bounds are theirs.
#[test]
fn a_round_is_shared_and_its_passes_and_notes_are_sent(rt: HostRuntime) -> Result<(), Fail> {
    let (round, pass) = begin_alone(rt.alloc(), &[], 0)?;
    let round = is_shared(round);
    let mut pass = is_sent(pass);
    let note = is_sent(round.note(&mut pass));
    round.learn(&mut pass, note);
    assert_eq!(rt; end_alone(rt.alloc(), round, pass)?.len(), 10);
    Ok(())
}
