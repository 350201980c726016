// Histories as a reader would write them down, from a set that has 5 and nothing else.
use crate::*;
use std::alloc::{AllocError, Global};
use std::test::Fail;

const fn entry(who: u32, serial: u64, call: Call, key: u64, answer: bool) -> Entry {
    Entry {
        who,
        serial,
        call,
        key,
        answer,
    }
}

fn legal_history() -> [Entry; 5] {
    [
        entry(0, 0, Call::Insert, 3, true),
        entry(1, 0, Call::Insert, 3, false),
        entry(0, 1, Call::Remove, 5, true),
        entry(1, 1, Call::Contains, 3, true),
        entry(0, 2, Call::Remove, 5, false),
    ]
}

fn five(alloc: Global) -> Result<PlainSet, AllocError> {
    Ok(PlainSet::from_sorted(Vec::from_array(alloc, [5])?))
}

#[test]
fn a_replayed_history_leaves_its_set(rt: HostRuntime) -> Result<(), Fail> {
    let mut set = five(rt.alloc())?;
    set.replay(&legal_history())?;
    assert_eq!(rt; set.keys(), [3].as_slice());
    Ok(())
}

#[test]
fn a_key_is_held_after_a_history_or_not(rt: HostRuntime) -> Result<(), Fail> {
    let set = five(rt.alloc())?;
    let history = legal_history();
    let cases = [(3, true), (5, false), (0, false), (u64::MAX, false)];
    for (key, held) in cases {
        assert_eq!(rt; set.holds_after(&history, key), held, "at {key}");
    }
    assert_eq!(rt; set.holds_after(&[], 5), true);
    Ok(())
}

// A history whose answers are all right is accepted; with any one of them turned it isn't.
#[test]
fn each_answer_of_a_history_counts(rt: HostRuntime) -> Result<(), Fail> {
    let set = five(rt.alloc())?;
    assert_eq!(rt; set.accepts(&legal_history()), true);
    assert_eq!(rt; set.accepts(&[]), true);
    for place in 0..5 {
        let mut history = legal_history();
        history[place].answer = !history[place].answer;
        assert_eq!(rt; set.accepts(&history), false, "at {place}");
    }
    Ok(())
}
