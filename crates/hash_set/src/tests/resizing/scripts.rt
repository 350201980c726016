// Scripts of calls and resizes, with their answers and the words that each leaves: docs/FORMAT.md says
// what stands where.
ghost use Rattle.std.specs.Prelude.{◌≡◌, ◌≤◌, None, IfOk};
ghost use Rattle.cells.specs.Tokens.{IsPassOf, IsSamePass};
ghost use Rattle.step_core.specs.Fits.{IsWellFormed};
ghost use Rattle.step_core.specs.Plain.{HasPlainRows};

use super::*;
use step_core::live_keys;

// A call on the set, or a resize of its table.
#[derive(Clone, Copy, Debug, PartialEq, Eq)]
enum Act {
    Insert(u64),
    Remove(u64),
    Contains(u64),
    // Fills the head's bucket of this number, where it is nil.
    Fill(u64),
    Resize(Way),
}

// What an act came to.
#[derive(Clone, Copy, Debug, PartialEq, Eq)]
enum Came {
    Called(Option<Outcome>),
    Found(Option<bool>),
    Did(bool),
}

// An act, what it comes to, the words that it changes, from a place on, and the keys of the set then.
#[derive(Clone, Copy)]
struct Line<'a> {
    act: Act,
    came: Came,
    words: &'a [(usize, &'a [u64])],
    keys: &'a [u64],
}

// Makes the act.
fn make(round: &Round, pass: &mut Pass, act: Act) -> Came
    requires pass { IsPassOf round.now pass.old }
    requires idle { pass.old.view.flight ≡ None }
    requires plan { round.now.plan.turns ≡ 0 }
    ensures pass { IsPassOf round.now pass.new × (pass.new.view.number ≡ pass.old.view.number) }
    ensures idle { pass.new.view.flight ≡ None }
{
    match act {
        Act::Insert(key) => Came::Called(inserted(round, pass, key)),
        Act::Remove(key) => Came::Called(removed(round, pass, key)),
        Act::Contains(key) => Came::Found(contained(round, pass, key)),
        Act::Fill(bucket) => Came::Did(filled(round, pass, bucket)),
        Act::Resize(way) => Came::Did(resized(round, pass, way)),
    }
}

// Makes the acts one behind the other. Whether each came to what is said.
fn came_so(round: &Round, pass: &mut Pass, lines: &[Line<'_>]) -> bool
    requires pass { IsPassOf round.now pass.old }
    requires idle { pass.old.view.flight ≡ None }
    requires plan { round.now.plan.turns ≡ 0 }
    ensures pass { IsPassOf round.now pass.new × (pass.new.view.number ≡ pass.old.view.number) }
    ensures idle { pass.new.view.flight ≡ None }
{
    for line in lines {
        if make(round, pass, line.act) != line.came {
            return false;
        }
    }
    true
}

// Whether each act came to what is said, and the words then.
#[derive(Drop)]
struct Played {
    agreed: bool,
    words: Words,
}

// A round of one pass without keys that makes these acts and ends.
fn play(alloc: Global, room: u64, lines: &[Line<'_>]) -> Result<Played, NoMemory>
    requires few { room ≤ 1000 }
    ensures well_formed { IfOk result (λ played. IsWellFormed played.words) }
    ensures plain { IfOk result (λ played. HasPlainRows played.words) }
{
    let (round, mut pass) = begin_alone(alloc, room)?;
    let agreed = came_so(&round, &mut pass, lines);
    let words = ended_alone(alloc, round, pass)?;
    Ok(Played { agreed, words })
}

// Writes so many words from the place on, as far as there are such.
pub(super) fn put(words: &mut [u64], at: usize, values: &[u64]) {
    for (offset, value) in values.iter().enumerate() {
        if let Some(word) = words.get_mut(at.wrapping_add(offset)) {
            *word = *value;
        }
    }
}

// Whether a round of one pass without keys that makes these acts and ends has the words and the keys
// that they say.
fn agrees(alloc: Global, room: u64, lines: &[Line<'_>]) -> Result<bool, NoMemory>
    requires few { room ≤ 1000 }
{
    let mut expected = vec![in alloc; 0; room as usize + 10]?;
    put(&mut expected, 0, &[4, 10, 0, 0, 0, 0, 14]);
    for line in lines {
        for (at, values) in line.words {
            put(&mut expected, *at, values);
        }
    }
    let keys = match lines.last() {
        Some(line) => line.keys,
        None => &[],
    };
    let played = play(alloc, room, lines)?;
    let live = live_keys(alloc, &played.words)?;
    Ok(played.agreed && played.words.as_slice() == expected.as_slice() && live.as_slice() == keys)
}

// What a call came to that changed the set, or didn't, with the width that it has.
fn done(width: u32) -> Came {
    Came::Called(changed(width))
}

fn same(width: u32) -> Came {
    Came::Called(unchanged(width))
}

// An act that leaves all words as they are, and the keys of the set.
fn leaves_all(act: Act, came: Came, keys: &[u64]) -> Line<'_> {
    Line {
        act,
        came,
        words: &[],
        keys,
    }
}

// A resize or a fill that was made.
const MADE: Came = Came::Did(true);

// A key that is there.
const THERE: Came = Came::Found(Some(true));

// The key 1 is of bucket 1 of two, and 2 and 3 are of bucket 0. The growth leaves both buckets nil: the
// insert of 2 fills its own from the frozen row of 1 alone, without a key. Until bucket 1 is filled, 1
// is found in that frozen row. After the shrink the insert of 3 joins both rows. The words expected
// are those of the rounds in which the acts up to each line were made.
#[test]
fn a_table_grows_and_shrinks_word_by_word(rt: HostRuntime) -> Result<(), Fail> {
    let lines = [
        Line {
            act: Act::Insert(1),
            came: done(1),
            words: &[(1, &[14]), (6, &[20]), (10, &[1, 0, 0, 1])],
            keys: &[1],
        },
        leaves_all(Act::Insert(1), same(1), &[1]),
        Line {
            act: Act::Resize(Way::Up),
            came: MADE,
            words: &[(0, &[14, 18]), (14, &[1, 4, 0, 0])],
            keys: &[1],
        },
        Line {
            act: Act::Insert(2),
            came: done(1),
            words: &[
                (1, &[25]),
                (6, &[21]),
                (16, &[42, 0]),
                (18, &[0, 0, 0]),
                (21, &[1, 0, 0, 2]),
            ],
            keys: &[1, 2],
        },
        leaves_all(Act::Contains(1), THERE, &[1, 2]),
        Line {
            act: Act::Fill(1),
            came: MADE,
            words: &[(1, &[29]), (17, &[50]), (25, &[1, 0, 0, 1])],
            keys: &[1, 2],
        },
        Line {
            act: Act::Resize(Way::Down),
            came: MADE,
            words: &[(0, &[29, 32]), (29, &[0, 14, 0])],
            keys: &[1, 2],
        },
        leaves_all(Act::Contains(1), THERE, &[1, 2]),
        leaves_all(Act::Contains(2), THERE, &[1, 2]),
        Line {
            act: Act::Insert(3),
            came: done(3),
            words: &[
                (1, &[43]),
                (16, &[43, 51]),
                (31, &[74]),
                (32, &[2, 0, 0, 1, 2]),
                (37, &[3, 0, 0, 1, 2, 3]),
            ],
            keys: &[1, 2, 3],
        },
        leaves_all(Act::Remove(9), same(3), &[1, 2, 3]),
    ];
    for made in 1..=lines.len() {
        assert!(rt; agrees(rt.alloc(), 100, &lines[..made])?, "line {made}");
    }
    Ok(())
}

// Bucket 0 of the head has 3 alone. Bucket 1 is nil, so 1 is a key by the frozen row in which 2 stands
// still. A list of the head's rows alone, or one of both generations' rows, would fail here.
#[test]
fn a_round_that_ends_amid_a_growth_has_the_keys_of_its_set(rt: HostRuntime) -> Result<(), Fail> {
    let lines = [
        Line {
            act: Act::Insert(1),
            came: done(1),
            words: &[(1, &[14]), (6, &[20]), (10, &[1, 0, 0, 1])],
            keys: &[1],
        },
        Line {
            act: Act::Insert(2),
            came: done(2),
            words: &[(1, &[19]), (6, &[28]), (14, &[2, 0, 0, 1, 2])],
            keys: &[1, 2],
        },
        Line {
            act: Act::Insert(3),
            came: done(3),
            words: &[(1, &[25]), (6, &[38]), (19, &[3, 0, 0, 1, 2, 3])],
            keys: &[1, 2, 3],
        },
        Line {
            act: Act::Resize(Way::Up),
            came: MADE,
            words: &[(0, &[25, 29]), (25, &[1, 4, 0, 0])],
            keys: &[1, 2, 3],
        },
        Line {
            act: Act::Remove(2),
            came: done(1),
            words: &[
                (1, &[38]),
                (6, &[39]),
                (27, &[68, 0]),
                (29, &[2, 0, 0, 2, 3]),
                (34, &[1, 0, 0, 3]),
            ],
            keys: &[1, 3],
        },
    ];
    for made in 1..=lines.len() {
        assert!(rt; agrees(rt.alloc(), 100, &lines[..made])?, "line {made}");
    }
    Ok(())
}

// A generation of two buckets has four words: with three of room the draw passes the end, and the pass
// is spent. A resize that exchanged the head without them would fail here.
#[test]
fn a_resize_without_room_for_its_generation_is_refused(rt: HostRuntime) -> Result<(), Fail> {
    let lines = [
        Line {
            act: Act::Resize(Way::Up),
            came: Came::Did(false),
            words: &[(1, &[14])],
            keys: &[],
        },
        leaves_all(Act::Insert(1), Came::Called(Some(Outcome::Full)), &[]),
        leaves_all(Act::Resize(Way::Up), Came::Did(false), &[]),
        leaves_all(Act::Contains(1), Came::Found(Some(false)), &[]),
    ];
    for made in 1..=lines.len() {
        assert!(rt; agrees(rt.alloc(), 3, &lines[..made])?, "line {made}");
    }
    Ok(())
}

// With seven the growth to two buckets is made, and bucket 0 is filled for the next one, but bucket 1
// isn't. A resize over a nil bucket would fail here.
#[test]
fn a_resize_without_room_for_a_bucket_is_refused(rt: HostRuntime) -> Result<(), Fail> {
    let lines = [
        Line {
            act: Act::Resize(Way::Up),
            came: MADE,
            words: &[(0, &[10, 14]), (10, &[1, 4, 0, 0])],
            keys: &[],
        },
        Line {
            act: Act::Resize(Way::Up),
            came: Came::Did(false),
            words: &[(1, &[20]), (6, &[15]), (12, &[28, 0]), (14, &[0, 0, 0])],
            keys: &[],
        },
    ];
    for made in 1..=lines.len() {
        assert!(rt; agrees(rt.alloc(), 7, &lines[..made])?, "line {made}");
    }
    Ok(())
}
