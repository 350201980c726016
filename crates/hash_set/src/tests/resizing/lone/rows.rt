// Rounds whose words are known after each call, and whose ledger tells of them: docs/FORMAT.md says what
// stands where.
ghost use Rattle.std.specs.Prelude.{◌≤◌};

use super::super::scripts::put;
use super::*;

// A call, what it comes to, the words that it changes, from a place on, and the keys of the set then.
#[derive(Clone, Copy)]
struct Line<'a> {
    asked: Asked,
    came: Came,
    words: &'a [(usize, &'a [u64])],
    keys: &'a [u64],
}

// A call that leaves all words as they are, and the keys of the set.
fn leaves_all(asked: Asked, came: Came, keys: &[u64]) -> Line<'_> {
    Line {
        asked,
        came,
        words: &[],
        keys,
    }
}

// Whether a round of one pass without keys that makes these calls and ends has the words and the keys
// that they say, and its ledger tells so.
fn is_so(alloc: Global, room: u64, lines: &[Line<'_>]) -> Result<bool, NoMemory>
    requires few { room ≤ 1000 }
{
    let mut expected = vec![in alloc; 0; room as usize + 10]?;
    put(&mut expected, 0, &[4, 10, 0, 0, 0, 0, 14]);
    let mut asked = Vec::new(alloc);
    let mut came = Vec::new(alloc);
    let mut keys: &[u64] = &[];
    for line in lines {
        for (at, values) in line.words {
            put(&mut expected, *at, values);
        }
        asked.push(line.asked)?;
        came.push(line.came)?;
        keys = line.keys;
    }
    let played = play(alloc, &[], room, asked.as_slice())?;
    let live = live_keys(alloc, &played.words)?;
    Ok(
        played.came.as_slice() == came.as_slice()
            && played.words.as_slice() == expected.as_slice()
            && live.as_slice() == keys
            && agrees(alloc, &[], room, asked.as_slice())?,
    )
}

// A resize that changed the table.
fn now_has(exponent: u32) -> Came {
    Came::Resized(Resized::Changed { exponent })
}

// A key that is there.
const THERE: Came = Came::Found(Some(true));

// The growth leaves both buckets nil. The insert of 2 fills its own, 0, without a key, and 1 is found
// in the frozen row before. The shrinking fills bucket 1 before it draws its generation. The insert of 3
// joins both rows.
#[test]
fn the_ledger_tells_of_a_table_that_grows_and_shrinks(rt: HostRuntime) -> Result<(), Fail> {
    let lines = [
        Line {
            asked: Asked::Insert(1),
            came: done(1),
            words: &[(1, &[14]), (6, &[20]), (10, &[1, 0, 0, 1])],
            keys: &[1],
        },
        leaves_all(Asked::Insert(1), same(1), &[1]),
        Line {
            asked: Asked::Grow,
            came: now_has(1),
            words: &[(0, &[14, 18]), (14, &[1, 4, 0, 0])],
            keys: &[1],
        },
        Line {
            asked: Asked::Insert(2),
            came: done(1),
            words: &[
                (1, &[25]),
                (6, &[21]),
                (16, &[42, 0]),
                (18, &[0, 0, 0]),
                (21, &[1, 0, 0, 2]),
            ],
            keys: &[1, 2],
        },
        leaves_all(Asked::Contains(1), THERE, &[1, 2]),
        Line {
            asked: Asked::Shrink,
            came: now_has(0),
            words: &[
                (0, &[29, 32]),
                (17, &[50]),
                (25, &[1, 0, 0, 1]),
                (29, &[0, 14, 0]),
            ],
            keys: &[1, 2],
        },
        leaves_all(Asked::Contains(1), THERE, &[1, 2]),
        leaves_all(Asked::Contains(2), THERE, &[1, 2]),
        leaves_all(Asked::Shrink, Came::Resized(Resized::AtLimit), &[1, 2]),
        Line {
            asked: Asked::Insert(3),
            came: done(3),
            words: &[
                (1, &[43]),
                (16, &[43, 51]),
                (31, &[74]),
                (32, &[2, 0, 0, 1, 2]),
                (37, &[3, 0, 0, 1, 2, 3]),
            ],
            keys: &[1, 2, 3],
        },
        leaves_all(Asked::Remove(9), same(3), &[1, 2, 3]),
    ];
    for made in 0..=lines.len() {
        assert!(rt; is_so(rt.alloc(), 100, &lines[..made])?, "line {made}");
    }
    Ok(())
}

// With three words of room the first insert raises the first word never drawn, and is refused. So are a
// second one and a growth, which draw nothing more. A resize begins no call.
#[test]
fn the_ledger_tells_of_a_spent_pass(rt: HostRuntime) -> Result<(), Fail> {
    let lines = [
        Line {
            asked: Asked::Insert(1),
            came: FULL,
            words: &[(1, &[14])],
            keys: &[],
        },
        leaves_all(Asked::Insert(1), FULL, &[]),
        leaves_all(Asked::Remove(1), same(0), &[]),
        leaves_all(Asked::Grow, Came::Resized(Resized::Full), &[]),
        leaves_all(Asked::Contains(1), Came::Found(Some(false)), &[]),
    ];
    let mut asked = Vec::new(rt.alloc());
    for made in 0..=lines.len() {
        assert!(rt; is_so(rt.alloc(), 3, &lines[..made])?, "line {made}");
    }
    for line in lines {
        asked.push(line.asked)?;
    }
    let played = play(rt.alloc(), &[], 3, asked.as_slice())?;
    assert_eq!(rt; (played.calls, played.spent), (4, Some(10)));
    assert_eq!(rt; exponent_of(&played.words), 0);
    Ok(())
}

// The keys 1 to 5 open with two buckets and 19 words. The key 6 is of the row of 2 and 3, and its insert
// draws six.
#[test]
fn the_ledger_tells_of_a_round_that_begins_with_keys(rt: HostRuntime) -> Result<(), Fail> {
    let keys = [1, 2, 3, 4, 5];
    let asked = [Asked::Insert(4), Asked::Insert(6)];
    let played = play(rt.alloc(), &keys, 0, &asked)?;
    assert_eq!(rt; played.came.as_slice(), [same(3), FULL].as_slice());
    assert_eq!(rt; (played.calls, played.spent), (2, Some(19)));
    assert_eq!(rt; played.words.as_slice().get(0..2), Some([4, 25].as_slice()));
    for made in 0..=asked.len() {
        assert!(rt;
            agrees(rt.alloc(), &keys, 0, &asked[..made])?,
            "{made} calls"
        );
    }
    Ok(())
}
