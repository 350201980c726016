// What stands after a refused allocation: run with each allocation refused in turn, and with none.
use crate::*;
use std::test::Fail;

const RISING: [u64; 12] = [1, 2, 3, 4, 5, 6, 7, 8, 9, 10, 11, 12];

// A refused insert changes nothing, and the set goes on after it.
#[test]
fn a_refused_insert_leaves_the_keys(rt: HostRuntime) -> Result<(), Fail> {
    let mut set = PlainSet::new(rt.alloc());
    for (made, key) in RISING.iter().enumerate() {
        let answer = match set.apply(Call::Insert, *key) {
            Ok(answer) => answer,
            Err(NoMemory) => {
                assert_eq!(rt; set.keys(), &RISING[..made], "refused at {key}");
                set.apply(Call::Insert, *key)?
            }
        };
        assert_eq!(rt; answer, true, "at {key}");
    }
    assert_eq!(rt; set.keys(), RISING.as_slice());
    Ok(())
}

// A refused replay has made a front of its calls, and made again it makes them all.
#[test]
fn a_refused_replay_leaves_a_front(rt: HostRuntime) -> Result<(), Fail> {
    let history = RISING.map(|key| Entry {
        who: 0,
        serial: key,
        call: Call::Insert,
        key,
        answer: true,
    });
    let mut set = PlainSet::new(rt.alloc());
    if let Err(NoMemory) = set.replay(&history) {
        assert!(rt; RISING.starts_with(set.keys()));
        set.replay(&history)?;
    }
    assert_eq!(rt; set.keys(), RISING.as_slice());
    Ok(())
}
