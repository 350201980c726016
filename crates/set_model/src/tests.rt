// Each public call once, at concrete values.
use super::*;
use std::test::Fail;

mod histories;
mod memory;

// A set of keys answers true to the first insert and to the first remove alone.
#[test]
fn answers_as_a_set(rt: HostRuntime) -> Result<(), Fail> {
    let cases = [
        (Call::Insert, true),
        (Call::Insert, false),
        (Call::Contains, true),
        (Call::Remove, true),
        (Call::Remove, false),
        (Call::Contains, false),
    ];
    let mut set = PlainSet::new(rt.alloc());
    for (call, answer) in cases {
        assert_eq!(rt; set.apply(call, 3)?, answer, "at {call:?}");
    }
    Ok(())
}

#[test]
fn keys_rise_to_the_greatest(rt: HostRuntime) -> Result<(), Fail> {
    let mut set = PlainSet::new(rt.alloc());
    for key in [u64::MAX, 0, 7, u64::MAX, 7] {
        set.apply(Call::Insert, key)?;
    }
    assert_eq!(rt; set.keys(), [0, 7, u64::MAX].as_slice());
    Ok(())
}

// The least and the greatest number are keys like any other.
#[test]
fn holds_the_sorted_keys_alone_and_gives_them_back(rt: HostRuntime) -> Result<(), Fail> {
    let set = PlainSet::from_sorted(Vec::from_array(rt.alloc(), [0, u64::MAX])?);
    let cases = [
        (0, true),
        (1, false),
        (u64::MAX - 1, false),
        (u64::MAX, true),
    ];
    for (key, held) in cases {
        assert_eq!(rt; set.holds(key), held, "at {key}");
    }
    assert_eq!(rt; set.keys(), [0, u64::MAX].as_slice());
    assert_eq!(rt; set.into_keys().as_slice(), [0, u64::MAX].as_slice());
    Ok(())
}

// A set that is made of a vector goes on as one that is made call by call.
#[test]
fn sorted_keys_are_a_set_to_go_on_with(rt: HostRuntime) -> Result<(), Fail> {
    let mut set = PlainSet::from_sorted(Vec::from_array(rt.alloc(), [0, u64::MAX])?);
    assert_eq!(rt; set.apply(Call::Insert, u64::MAX)?, false);
    assert_eq!(rt; set.apply(Call::Remove, u64::MAX)?, true);
    assert_eq!(rt; set.apply(Call::Insert, 5)?, true);
    assert_eq!(rt; set.apply(Call::Remove, 0)?, true);
    assert_eq!(rt; set.into_keys().as_slice(), [5].as_slice());
    Ok(())
}
