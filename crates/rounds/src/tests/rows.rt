// Rounds whose words are known: docs/FORMAT.md says what stands where.
use super::*;

// An opening without keys has ten words, which with a room of 2^28 are too many.
#[test]
fn a_round_of_too_many_words_is_told_how_many(rt: HostRuntime) -> Result<(), Fail> {
    match start_round(rt.alloc(), &[], plan_of(1, 4, 1 << 28)) {
        Err(fault) => {
            assert_eq!(rt; fault, OpenFault::TooWide { words: 268_435_466 });
            let text = format!(in rt.alloc(); "{fault}")?;
            assert_eq!(rt; text.as_str(), "a round of 268435466 words is too wide");
        }
        Ok(_) => assert!(rt; false),
    }
    Ok(())
}

// The smallest use: a round, a call, and the end.
#[test]
fn a_round_ends_with_what_was_inserted(rt: HostRuntime) -> Result<(), Fail> {
    let (round, mut pass) = begin_alone(rt.alloc(), &[1, 2, 3], 100)?;
    inserted(&round, &mut pass, 9);
    removed(&round, &mut pass, 2);
    let closing = closed_alone(rt.alloc(), round, pass)?;
    assert_eq!(rt; closing.keys(), [1, 3, 9].as_slice());
    assert_eq!(rt; (closing.calls(0), closing.spent(0)), (2, None));
    let _history = closing.front();
    Ok(())
}

// The opening has 19 words and two buckets. The row of the keys 2 and 3 is that of 6, so the insert
// of 6 draws 6 words.
#[test]
fn a_round_without_room_ends_with_its_keys(rt: HostRuntime) -> Result<(), Fail> {
    let (round, mut pass) = begin_alone(rt.alloc(), &[1, 2, 3, 4, 5], 0)?;
    assert_eq!(rt; inserted(&round, &mut pass, 4), unchanged(3));
    assert_eq!(rt; inserted(&round, &mut pass, 6), Some(Outcome::Full));
    let closing = closed_alone(rt.alloc(), round, pass)?;
    assert_eq!(rt; closing.keys(), [1, 2, 3, 4, 5].as_slice());
    assert_eq!(rt; (closing.exponent(), closing.next()), (1, 25));
    assert_eq!(rt; (closing.calls(0), closing.spent(0)), (2, Some(19)));
    Ok(())
}

// With three words of room the row of one key passes the end, and NEXT is raised once.
#[test]
fn a_full_pass_shows_in_the_closing(rt: HostRuntime) -> Result<(), Fail> {
    let (round, mut pass) = begin_alone(rt.alloc(), &[], 3)?;
    assert_eq!(rt; inserted(&round, &mut pass, 1), Some(Outcome::Full));
    assert_eq!(rt; inserted(&round, &mut pass, 1), Some(Outcome::Full));
    assert_eq!(rt; removed(&round, &mut pass, 1), unchanged(0));
    if pass.calls() < MAX_CALLS {
        assert!(rt; !contains(&round, &mut pass, 1));
    }
    let closing = closed_alone(rt.alloc(), round, pass)?;
    assert_eq!(rt; closing.keys(), [].as_slice());
    assert_eq!(rt; (closing.exponent(), closing.next()), (0, 14));
    assert_eq!(rt; (closing.calls(0), closing.spent(0)), (4, Some(10)));
    Ok(())
}
