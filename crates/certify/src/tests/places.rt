// Each verdict at the first place, at one in the middle, and at the last.
use crate::{Claimed, Verdict, check_order};
use set_model::Call;
use std::test::Fail;

// Callers 0, 1 and 2 in turn, and one key.
fn six_calls() -> [Claimed; 6] {
    [
        claim(0, Call::Insert, true),
        claim(1, Call::Insert, false),
        claim(2, Call::Contains, true),
        claim(0, Call::Remove, true),
        claim(1, Call::Contains, false),
        claim(2, Call::Remove, false),
    ]
}

fn claim(who: u32, call: Call, answer: bool) -> Claimed {
    Claimed {
        who,
        call,
        key: 9,
        answer,
    }
}

#[test]
fn each_verdict_at_the_first_a_middle_and_the_last_place(rt: HostRuntime) -> Result<(), Fail> {
    let cases: [(&[u64], Verdict); 19] = [
        (&[1, 2, 3, 4, 5, 6], Verdict::Legal),
        (&[1, 3, 2, 4, 6, 5], Verdict::Legal),
        (&[7, 7, 7], Verdict::Unknown { place: 1 }),
        (&[0], Verdict::Unknown { place: 1 }),
        (&[1, 2, 7, 2], Verdict::Unknown { place: 3 }),
        (&[1, 2, 3, 4, 5, u64::MAX], Verdict::Unknown { place: 6 }),
        (&[1, 1, 6], Verdict::Repeated { place: 2 }),
        (&[1, 2, 3, 2, 6], Verdict::Repeated { place: 4 }),
        (&[1, 2, 3, 4, 5, 6, 1], Verdict::Repeated { place: 7 }),
        (&[4, 1], Verdict::Early { place: 1 }),
        (&[1, 2, 6, 0], Verdict::Early { place: 3 }),
        (&[1, 3, 4, 5], Verdict::Early { place: 4 }),
        (&[2, 9], Verdict::Wrong { place: 1 }),
        (&[1, 4, 3, 3], Verdict::Wrong { place: 3 }),
        (&[1, 2, 3, 5], Verdict::Wrong { place: 4 }),
        (&[], Verdict::Missing { number: 1 }),
        (&[1, 2, 3, 5], Verdict::Wrong { place: 4 }),
        (&[1, 3, 4, 6], Verdict::Missing { number: 2 }),
        (&[1, 2, 3, 4, 5], Verdict::Missing { number: 6 }),
    ];
    let calls = six_calls();
    for (order, verdict) in cases {
        let found = check_order(rt.alloc(), &calls, order)?;
        assert_eq!(rt; found, verdict, "at {order:?}");
    }
    assert_eq!(rt; check_order(rt.alloc(), &[], &[])?, Verdict::Legal);
    Ok(())
}
