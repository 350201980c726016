// What no clause says of the workers: that they work side by side, and what their number changes.
use super::fixture::{NONE, PIECES, Sizes, run_gated, run_sized};
use super::rooms::{lines_of, random_ids, settled_calls, sorted_lines};
use outside::Gate;
use std::alloc::Global;
use std::sync::atomic::{AtomicBool, AtomicU64, Ordering};
use std::test::Fail;
use std::thread::Threads;

// How often a held call looks whether it may go on: some seconds, so that a busy machine doesn't make it give up.
const TURNS: u64 = 10_000_000_000;

// Holds the first call of each worker until all have come to theirs, for a bounded number of turns. A
// round that follows finds that they have.
#[derive(Drop)]
struct Meeting {
    workers: u64,
    arrived: AtomicU64,
    missed: AtomicBool,
}

impl Gate for Meeting {
    fn before(&self, _worker: u32, nth: u64) {
        if nth > 0 {
            return;
        }
        self.arrived.fetch_add(1, Ordering::SeqCst);
        for _ in 0..TURNS {
            if self.arrived.load(Ordering::SeqCst) >= self.workers {
                return;
            }
        }
        self.missed.store(true, Ordering::SeqCst);
    }

    fn after(&self, _worker: u32, _nth: u64) {}
}

// Refuses a body that runs workers one after another, in whatever order, and one that has fewer threads.
#[test]
fn workers_work_side_by_side(rt: HostRuntime) -> Result<(), Fail> {
    let alloc = rt.alloc();
    let mut file = Vec::new(alloc);
    for id in 100..200u64 {
        file.extend_from_slice(format!(in alloc; "{id}\n")?.as_bytes())?;
    }
    for (count, workers) in [("2", 2), ("4", 4)] {
        let gate = Meeting {
            workers,
            arrived: AtomicU64::new(0),
            missed: AtomicBool::new(false),
        };
        let words = [
            "dedup",
            "--workers",
            count,
            "--room",
            "10000",
            "--list",
            "ids",
            "f",
        ];
        let files = (file.as_slice(), b"".as_slice());
        let outcome = run_gated(&rt, alloc, &words, files, &NONE, (PIECES, &gate))?;
        assert_eq!(rt; outcome.out.bytes(), file.as_slice());
        assert!(rt; !gate.missed.load(Ordering::SeqCst), "of {count} workers");
        assert!(rt; gate.arrived.load(Ordering::SeqCst) >= workers);
    }
    Ok(())
}

// Of each worker, how many calls of its round are begun and how many are ended.
#[derive(Drop)]
struct Pairs {
    begun: [AtomicU64; 3],
    ended: [AtomicU64; 3],
    calls: AtomicU64,
    broken: AtomicBool,
}

impl Pairs {
    // Whether the worker's counts are these; they are raised by so much then.
    fn goes(&self, worker: u32, counts: (u64, u64), more: (u64, u64)) -> bool {
        let at = worker as usize;
        match (self.begun.get(at), self.ended.get(at)) {
            (Some(begun), Some(ended)) => {
                let found = (begun.load(Ordering::SeqCst), ended.load(Ordering::SeqCst));
                begun.store(counts.0.wrapping_add(more.0), Ordering::SeqCst);
                ended.store(counts.1.wrapping_add(more.1), Ordering::SeqCst);
                found == counts
            }
            _ => false,
        }
    }
}

impl Gate for Pairs {
    fn before(&self, worker: u32, nth: u64) {
        self.calls.fetch_add(1, Ordering::SeqCst);
        // A worker's first call is that of a new round.
        if !self.goes(worker, (nth, nth), (1, 0)) && nth > 0 {
            self.broken.store(true, Ordering::SeqCst);
        }
    }

    fn after(&self, worker: u32, nth: u64) {
        if !self.goes(worker, (nth.wrapping_add(1), nth), (0, 1)) {
            self.broken.store(true, Ordering::SeqCst);
        }
    }
}

#[test]
fn each_insert_has_a_pair_of_calls_of_the_gate(rt: HostRuntime) -> Result<(), Fail> {
    for room in ["1000", "0"] {
        let gate = Pairs {
            begun: [AtomicU64::new(0), AtomicU64::new(0), AtomicU64::new(0)],
            ended: [AtomicU64::new(0), AtomicU64::new(0), AtomicU64::new(0)],
            calls: AtomicU64::new(0),
            broken: AtomicBool::new(false),
        };
        let words = [
            "dedup",
            "--workers",
            "3",
            "--room",
            room,
            "--list",
            "ids",
            "f",
        ];
        let files = (b"7\n8\n7\n9\n7\n".as_slice(), b"".as_slice());
        let outcome = run_gated(&rt, rt.alloc(), &words, files, &NONE, (PIECES, &gate))?;
        let mut begun = 0u64;
        for workers in &outcome.ended.made {
            assert_eq!(rt; workers.len(), 3);
            for numbers in workers {
                begun = begun.wrapping_add(numbers.len() as u64);
            }
        }
        assert!(rt; !gate.broken.load(Ordering::SeqCst), "in room {room}");
        assert_eq!(rt; gate.calls.load(Ordering::SeqCst), begun);
    }
    Ok(())
}

// Holds one worker's calls until the other's are over, for a bounded number of turns.
#[derive(Drop)]
struct Late {
    worker: u32,
    over: AtomicBool,
    missed: AtomicBool,
}

impl Gate for Late {
    fn before(&self, worker: u32, _nth: u64) {
        if worker != self.worker {
            return;
        }
        for _ in 0..TURNS {
            if self.over.load(Ordering::SeqCst) {
                return;
            }
        }
        self.missed.store(true, Ordering::SeqCst);
    }

    fn after(&self, worker: u32, _nth: u64) {
        if worker != self.worker {
            self.over.store(true, Ordering::SeqCst);
        }
    }
}

// Refuses a body that calls the gate behind the insert where it should before: of one id on two lines
// the one whose worker isn't late is kept, each time.
#[test]
fn the_gate_is_called_before_an_insert(rt: HostRuntime) -> Result<(), Fail> {
    for _ in 0..10 {
        for (worker, kept) in [(0, b"7 1:2\n"), (1, b"7 1:1\n")] {
            let gate = Late {
                worker,
                over: AtomicBool::new(false),
                missed: AtomicBool::new(false),
            };
            let words = ["dedup", "--workers", "2", "--room", "1000", "f"];
            let files = (b"7\n7\n".as_slice(), b"".as_slice());
            let outcome = run_gated(&rt, rt.alloc(), &words, files, &NONE, (PIECES, &gate))?;
            assert_eq!(rt; outcome.out.bytes(), kept.as_slice());
            assert!(rt; !gate.missed.load(Ordering::SeqCst));
        }
    }
    Ok(())
}

// Each of two workers is refused its first insert, and both are settled behind the first round.
#[test]
fn without_room_each_worker_has_an_insert_settled(rt: HostRuntime) -> Result<(), Fail> {
    let words = [
        "dedup",
        "--workers",
        "2",
        "--room",
        "0",
        "--list",
        "ids",
        "f",
    ];
    let outcome = run_sized(&rt, rt.alloc(), &words, (b"3\n1\n3\n", b""), &NONE, PIECES)?;
    assert_eq!(rt; outcome.out.bytes(), b"1\n3\n".as_slice());
    assert_eq!(rt; outcome.ended.closings.len(), 2);
    let settled = settled_calls(rt.alloc(), &outcome)?;
    assert_eq!(rt;
        settled.as_slice(),
        [(0, 0, 0, 3, true), (0, 1, 0, 1, true)].as_slice()
    );
    Ok(())
}

// Either record may be the one whose insert changed the set.
#[test]
fn of_one_id_in_two_files_either_record_is_kept(rt: HostRuntime) -> Result<(), Fail> {
    let words = ["dedup", "--workers", "2", "--room", "1000", "f", "g"];
    let outcome = run_sized(&rt, rt.alloc(), &words, (b"007\n", b"7\r\n"), &NONE, PIECES)?;
    let text = outcome.out.bytes();
    assert!(rt; text == b"7 1:1\n".as_slice() || text == b"7 2:1\n".as_slice());
    Ok(())
}

#[test]
fn the_defaults_print_each_id_with_a_record_of_it(rt: HostRuntime) -> Result<(), Fail> {
    let f = b"1726482093751209984\n1726482093751209985\n".as_slice();
    let g = b"1726482093751209985\n42\n".as_slice();
    let words = ["dedup", "f", "g"];
    let sizes = Sizes {
        piece: 1 << 16,
        space: 128,
    };
    let outcome = run_sized(&rt, rt.alloc(), &words, (f, g), &NONE, sizes)?;
    let text = outcome.out.bytes();
    let first = b"42 2:2\n1726482093751209984 1:1\n1726482093751209985 1:2\n".as_slice();
    let second = b"42 2:2\n1726482093751209984 1:1\n1726482093751209985 2:1\n".as_slice();
    assert!(rt; text == first || text == second);
    Ok(())
}

// The list of these ids, as so many workers make it in so much room.
fn list_of(
    rt: &(impl Threads + Sync),
    alloc: Global,
    file: &[u8],
    workers: &str,
    room: &str,
) -> Result<Vec<u8>, Fail> {
    let words = [
        "dedup",
        "--workers",
        workers,
        "--room",
        room,
        "--list",
        "ids",
        "f",
    ];
    let sizes = Sizes {
        piece: 1 << 16,
        space: 1 << 20,
    };
    let outcome = run_sized(rt, alloc, &words, (file, b""), &NONE, sizes)?;
    Ok(Vec::from_slice(alloc, outcome.out.bytes())?)
}

#[test]
fn the_number_of_workers_changes_no_list(rt: HostRuntime) -> Result<(), Fail> {
    let alloc = rt.alloc();
    for (count, room) in [(200, "0"), (5_000, "1000"), (20_000, "100000")] {
        let ids = random_ids(alloc, count, count as u64 / 2)?;
        let file = lines_of(alloc, &ids)?;
        let wanted = sorted_lines(alloc, &ids)?;
        for workers in ["1", "2", "3", "4", "8", "64"] {
            let list = list_of(&rt, alloc, &file, workers, room)?;
            assert!(rt;
                list.as_slice() == wanted.as_slice(),
                "{workers} in room {room}"
            );
        }
    }
    Ok(())
}
