// What no clause says of the rounds of a run: how many there are, and what the room makes of them.
use super::fixture::{NONE, Outcome, PIECES, Sizes, run_sized};
use std::alloc::Global;
use std::test::Fail;
use std::thread::Threads;

// The decimal digits of these ids, a line each.
pub(super) fn lines_of(alloc: Global, ids: &[u64]) -> Result<Vec<u8>, Fail> {
    let mut text = Vec::new(alloc);
    for id in ids {
        text.extend_from_slice(format!(in alloc; "{id}\n")?.as_bytes())?;
    }
    Ok(text)
}

// So many ids, of which about half are distinct, from a linear congruential generator (Knuth, "The Art
// of Computer Programming", volume 2, 3.3.4, line 26).
pub(super) fn random_ids(alloc: Global, count: usize, most: u64) -> Result<Vec<u64>, Fail> {
    let mut ids = Vec::new(alloc);
    let mut state = 1u64;
    for _ in 0..count {
        state = state
            .wrapping_mul(6_364_136_223_846_793_005)
            .wrapping_add(1_442_695_040_888_963_407);
        if most > 0 {
            ids.push((state >> 33) % most)?;
        }
    }
    Ok(ids)
}

// The ids in order, each once, a line each.
pub(super) fn sorted_lines(alloc: Global, ids: &[u64]) -> Result<Vec<u8>, Fail> {
    let mut sorted = Vec::from_slice(alloc, ids)?;
    sorted.sort_unstable();
    sorted.dedup();
    lines_of(alloc, &sorted)
}

// A run over one file, whose list is the ids.
fn run_in_room(
    rt: &(impl Threads + Sync),
    alloc: Global,
    file: &[u8],
    room: &str,
) -> Result<Outcome, Fail> {
    let words = [
        "dedup",
        "--workers",
        "1",
        "--room",
        room,
        "--list",
        "ids",
        "f",
    ];
    run_sized(rt, alloc, &words, (file, b""), &NONE, PIECES)
}

// A settled call: its round, worker, serial and key, and its answer.
pub(super) type Settled = (usize, u32, u64, u64, bool);

// The settled calls of all rounds, in order.
pub(super) fn settled_calls(alloc: Global, outcome: &Outcome) -> Result<Vec<Settled>, Fail> {
    let mut calls = Vec::new(alloc);
    for (round, entries) in outcome.ended.settled.iter().enumerate() {
        for entry in entries {
            calls.push((round, entry.who, entry.serial, entry.key, entry.answer))?;
        }
    }
    Ok(calls)
}

// Each new id is refused, settled behind a round of its own, and there in the next.
#[test]
fn without_room_each_new_id_is_settled_after_a_round_of_its_own(
    rt: HostRuntime,
) -> Result<(), Fail> {
    let outcome = run_in_room(&rt, rt.alloc(), b"3\n1\n3\n", "0")?;
    assert_eq!(rt; outcome.out.bytes(), b"1\n3\n".as_slice());
    assert_eq!(rt; outcome.ended.closings.len(), 3);
    let settled = settled_calls(rt.alloc(), &outcome)?;
    assert_eq!(rt;
        settled.as_slice(),
        [(0, 0, 0, 3, true), (1, 0, 0, 1, true)].as_slice()
    );
    let mut made = Vec::new(rt.alloc());
    for workers in &outcome.ended.made {
        for numbers in workers {
            made.push(numbers.as_slice())?;
        }
    }
    assert_eq!(rt; made.len(), 3);
    assert_eq!(rt; made[0], [0].as_slice());
    assert_eq!(rt; made[1], [1].as_slice());
    assert_eq!(rt; made[2], [2].as_slice());
    Ok(())
}

// A body that ignores the room makes one round always.
#[test]
fn the_room_changes_the_rounds_and_not_the_list(rt: HostRuntime) -> Result<(), Fail> {
    let alloc = rt.alloc();
    let ids = random_ids(alloc, 200, 150)?;
    let file = lines_of(alloc, &ids)?;
    let wanted = sorted_lines(alloc, &ids)?;
    let mut rounds = Vec::new(alloc);
    for room in ["0", "40", "1000", "16777216"] {
        let outcome = run_in_room(&rt, alloc, &file, room)?;
        assert_eq!(rt; outcome.ended.status, 0, "at room {room}");
        assert_eq!(rt; outcome.out.bytes(), wanted.as_slice(), "at room {room}");
        assert_eq!(rt; outcome.ended.settled.len(), outcome.ended.closings.len());
        rounds.push(outcome.ended.closings.len())?;
    }
    assert_eq!(rt; rounds.len(), 4);
    // Without room there is a round for each distinct id, and with the most there is one in all.
    let distinct = wanted.iter().filter(|byte| **byte == b'\n').count();
    assert!(rt; rounds[0] >= distinct && distinct > rounds[1]);
    assert!(rt; rounds[1] > rounds[2] && rounds[2] > rounds[3]);
    assert_eq!(rt; rounds[3], 1);
    Ok(())
}

// The row of a first id takes four words: a word less is too little, and no more are needed.
#[test]
fn a_round_has_the_room_that_is_asked_for(rt: HostRuntime) -> Result<(), Fail> {
    let few = run_in_room(&rt, rt.alloc(), b"5\n", "3")?;
    let settled = settled_calls(rt.alloc(), &few)?;
    assert_eq!(rt; settled.as_slice(), [(0, 0, 0, 5, true)].as_slice());
    let enough = run_in_room(&rt, rt.alloc(), b"5\n", "4")?;
    assert!(rt; settled_calls(rt.alloc(), &enough)?.is_empty());
    assert_eq!(rt; enough.out.bytes(), b"5\n".as_slice());
    Ok(())
}

// One round takes all three records, and its table doesn't grow.
#[test]
fn a_closing_has_the_keys_of_its_round(rt: HostRuntime) -> Result<(), Fail> {
    let outcome = run_in_room(&rt, rt.alloc(), b"3\n1\n3\n", "1000")?;
    assert_eq!(rt; outcome.ended.closings.len(), 1);
    for closing in &outcome.ended.closings {
        assert_eq!(rt; closing.keys(), [1, 3].as_slice());
        assert_eq!(rt; closing.exponent(), 0);
    }
    Ok(())
}

#[test]
fn a_run_has_at_most_2_to_the_24_records(rt: HostRuntime) -> Result<(), Fail> {
    let alloc = rt.alloc();
    let mut file = Vec::with_capacity(alloc, 1 << 25)?;
    for _ in 0..1 << 24 {
        file.extend_from_slice(b"1\n")?;
    }
    let words = ["dedup", "--workers", "1", "--list", "count", "f", "g"];
    let sizes = Sizes {
        piece: 1 << 16,
        space: 64,
    };
    let within = run_sized(&rt, alloc, &words, (&file, b"\n"), &NONE, sizes)?;
    assert_eq!(rt; within.ended.status, 0);
    assert_eq!(rt;
        within.out.bytes(),
        b"records 16777216 distinct 1\n".as_slice()
    );

    let past = run_sized(&rt, alloc, &words, (&file, b"1\n"), &NONE, sizes)?;
    assert_eq!(rt; past.ended.status, 6);
    assert!(rt; past.out.bytes().is_empty());
    assert_eq!(rt;
        past.faults.bytes(),
        b"dedup: too many records\n".as_slice()
    );
    Ok(())
}
