// Calls of one or two passes whose words are known: docs/FORMAT.md says what stands where.
use super::*;
use step_core::live_keys;

// The opening has HEAD 4, its only bucket at 6 names the row at 7, and NEXT is 10.
#[test]
fn an_insert_puts_a_row_behind_the_opening(rt: HostRuntime) -> Result<(), Fail> {
    let (round, pass) = begin_alone(rt.alloc(), 100)?;
    let words = ended_alone(rt.alloc(), round, pass)?;
    assert_eq!(rt; words.as_slice().get(0), Some(&4));
    assert_eq!(rt; words.as_slice().get(6), Some(&14));
    assert_eq!(rt; words.as_slice().get(1), Some(&10));

    let (round, mut pass) = begin_alone(rt.alloc(), 100)?;
    assert_eq!(rt; inserted(&round, &mut pass, 1), changed(1));
    let words = ended_alone(rt.alloc(), round, pass)?;
    assert_eq!(rt; words.as_slice().get(6), Some(&20));
    assert_eq!(rt; words.as_slice().get(1), Some(&14));
    assert_eq!(rt; words.as_slice().get(10..14), Some([1, 0, 0, 1].as_slice()));
    Ok(())
}

// The second insert of a key draws nothing.
#[test]
fn a_key_is_inserted_once(rt: HostRuntime) -> Result<(), Fail> {
    let (round, mut pass) = begin_alone(rt.alloc(), 100)?;
    assert_eq!(rt; inserted(&round, &mut pass, 1), changed(1));
    assert_eq!(rt; inserted(&round, &mut pass, 1), unchanged(1));
    let words = ended_alone(rt.alloc(), round, pass)?;
    assert_eq!(rt; words.as_slice().get(1), Some(&14));
    assert_eq!(rt; live_keys(rt.alloc(), &words)?.as_slice(), [1].as_slice());
    Ok(())
}

// The greatest id and the least come and go. Their rows have 4, 5, 4 and 3 words.
#[test]
fn the_greatest_id_and_the_least_come_and_go(rt: HostRuntime) -> Result<(), Fail> {
    let (round, mut pass) = begin_alone(rt.alloc(), 100)?;
    assert_eq!(rt; inserted(&round, &mut pass, u64::MAX), changed(1));
    assert_eq!(rt; inserted(&round, &mut pass, 0), changed(2));
    assert_eq!(rt; removed(&round, &mut pass, u64::MAX), changed(1));
    assert_eq!(rt; removed(&round, &mut pass, 0), changed(0));
    let words = ended_alone(rt.alloc(), round, pass)?;
    assert_eq!(rt; words.as_slice().get(1), Some(&26));
    assert_eq!(rt; live_keys(rt.alloc(), &words)?.as_slice(), [].as_slice());
    Ok(())
}

// With three words of room a row of one key passes the end, and NEXT is raised once. What changes
// nothing is answered all the same.
#[test]
fn a_full_pass_goes_on_to_answer(rt: HostRuntime) -> Result<(), Fail> {
    let (round, mut pass) = begin_alone(rt.alloc(), 3)?;
    assert_eq!(rt; inserted(&round, &mut pass, 1), Some(Outcome::Full));
    assert_eq!(rt; pass.spent(), Some(10));
    assert_eq!(rt; inserted(&round, &mut pass, 1), Some(Outcome::Full));
    assert_eq!(rt; removed(&round, &mut pass, 1), unchanged(0));
    assert_eq!(rt; contained(&round, &mut pass, 1), Some(false));
    assert_eq!(rt; (pass.calls(), pass.spent()), (4, Some(10)));
    let words = ended_alone(rt.alloc(), round, pass)?;
    assert_eq!(rt; words.as_slice().get(1), Some(&14));
    assert_eq!(rt; live_keys(rt.alloc(), &words)?.as_slice(), [].as_slice());
    Ok(())
}

// A note carries what one pass has seen to the other. A pass that answered from a copy of its own
// would be wrong about both.
#[test]
fn what_one_pass_inserts_another_finds(rt: HostRuntime) -> Result<(), Fail> {
    let (round, mut first, mut second) = begin_two(rt.alloc(), 100)?;
    assert_eq!(rt; inserted(&round, &mut first, 9), changed(1));
    let note = round.note(&mut first);
    round.learn(&mut second, note);
    assert_eq!(rt; contained(&round, &mut second, 9), Some(true));

    assert_eq!(rt; removed(&round, &mut second, 9), changed(0));
    let note = round.note(&mut second);
    round.learn(&mut first, note);
    assert_eq!(rt; contained(&round, &mut first, 9), Some(false));
    Ok(())
}
