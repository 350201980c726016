// Seven calls in rooms from none to all that they draw.
use super::*;

// The keys 2 and 3 are of bucket 0 of two, and 1 is of bucket 1.
const CALLS: [Asked; 7] = [
    Asked::Insert(1),
    Asked::Insert(2),
    Asked::Grow,
    Asked::Insert(3),
    Asked::Remove(1),
    Asked::Shrink,
    Asked::Insert(1),
];

// How many words are drawn with each, where none is refused: rows of 4 and 5 words; a generation of 4;
// for bucket 0 a row of 4, then one of 5; for bucket 1 a row of 4, then one of 3; a generation of 3; and
// for the bucket of both a row of 5, then one of 6.
const WORDS: [u64; 7] = [4, 9, 13, 22, 29, 32, 43];

// Which call was the first to be refused, from 0.
fn first_full(came: &[Came]) -> Option<usize> {
    for (place, came) in came.iter().enumerate() {
        if *came == FULL || *came == Came::Resized(Resized::Full) {
            return Some(place);
        }
    }
    None
}

// Which call draws past so much room, from 0.
fn first_past(room: u64) -> Option<usize> {
    for (place, words) in WORDS.iter().enumerate() {
        if room < *words {
            return Some(place);
        }
    }
    None
}

// A body that draws a word more or less than the ledger, or at another place in the call, would fail in
// one of these rooms.
#[test]
fn in_each_room_the_ledger_tells_what_calls_come_to(rt: HostRuntime) -> Result<(), Fail> {
    for room in 0..44 {
        for made in 0..=CALLS.len() {
            let agreed = agrees(rt.alloc(), &[], room, &CALLS[..made])?;
            assert!(rt; agreed, "{made} calls with room {room}");
        }
        let played = play(rt.alloc(), &[], room, &CALLS)?;
        assert_eq!(rt;
            first_full(played.came.as_slice()),
            first_past(room),
            "room {room}"
        );
    }
    Ok(())
}

// A room, what the seven calls come to in it, where the pass is spent, the first word never drawn, and
// the keys in the end.
#[derive(Clone, Copy)]
struct Case<'a> {
    room: u64,
    came: [Came; 7],
    spent: Option<u64>,
    next: u64,
    keys: &'a [u64],
}

// With all 43 words no call is refused. With one less the last is, when its bucket was filled. With 12 the
// growth is: the table keeps its one bucket, and what changes nothing is answered all the same.
#[test]
fn calls_that_lack_a_word_are_full(rt: HostRuntime) -> Result<(), Fail> {
    let (grown, shrunk) = (
        Came::Resized(Resized::Changed { exponent: 1 }),
        Came::Resized(Resized::Changed { exponent: 0 }),
    );
    let (full, limit) = (
        Came::Resized(Resized::Full),
        Came::Resized(Resized::AtLimit),
    );
    let cases = [
        Case {
            room: 43,
            came: [done(1), done(2), grown, done(2), done(0), shrunk, done(3)],
            spent: None,
            next: 53,
            keys: &[1, 2, 3],
        },
        Case {
            room: 42,
            came: [done(1), done(2), grown, done(2), done(0), shrunk, FULL],
            spent: Some(47),
            next: 53,
            keys: &[2, 3],
        },
        Case {
            room: 12,
            came: [done(1), done(2), full, FULL, FULL, limit, same(2)],
            spent: Some(19),
            next: 23,
            keys: &[1, 2],
        },
    ];
    for case in &cases {
        let played = play(rt.alloc(), &[], case.room, &CALLS)?;
        assert_eq!(rt;
            played.came.as_slice(),
            case.came.as_slice(),
            "room {}",
            case.room
        );
        assert_eq!(rt; played.spent, case.spent, "room {}", case.room);
        assert_eq!(rt; played.words.as_slice().get(1), Some(&case.next));
        let keys = live_keys(rt.alloc(), &played.words)?;
        assert_eq!(rt; keys.as_slice(), case.keys);
    }
    Ok(())
}
