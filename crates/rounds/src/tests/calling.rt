// The caller that docs/CALLING.md shows.
use super::*;

// A round of two passes from its start to its end: what the second finds of what the first inserts,
// and the keys that are left.
fn first_inserts_second_finds(alloc: Global) -> Result<(bool, Vec<u64>), OpenFault> {
    let plan = Plan {
        seats: 2,
        fast: 4,
        turns: 0,
        room: 100,
    };
    let (round, mut passes) = start_round(alloc, &[], plan)?;
    let (Some(mut second), Some(mut first)) = (passes.pop(), passes.pop()) else {
        unreachable!()
    };

    insert(&round, &mut first, 9);
    let note = round.note(&mut first);
    round.learn(&mut second, note);
    let found = contains(&round, &mut second, 9);

    passes.push(first)?;
    passes.push(second)?;
    let Ok(halted) = halt_round(alloc, round, passes) else {
        return Err(OpenFault::NoMemory);
    };
    let Ok(closing) = end_round(alloc, halted) else {
        return Err(OpenFault::NoMemory);
    };
    Ok((found, Vec::from_slice(alloc, closing.keys())?))
}

#[test]
fn a_caller_of_the_whole_set_runs(rt: HostRuntime) -> Result<(), Fail> {
    let (found, keys) = first_inserts_second_finds(rt.alloc())?;
    assert!(rt; found);
    assert_eq!(rt; keys.as_slice(), [9].as_slice());
    Ok(())
}
