// Exchanges of rows by typed steps, of a round whose only bucket has one key at most.
ghost use Rattle.std.specs.Prelude.{◌≡◌, ◌+◌, ◌≤◌, ◌<◌, None, IfErr, IfOk, IfSome, [], ◌∷◌, ◌++◌, true, length};
ghost use Rattle.arena.specs.Hands.{words_at};
ghost use Rattle.cells.specs.Exchanges.{MaySwapRow, swap_change};
ghost use Rattle.cells.specs.Tokens.{HasNewCall, IsPassOf, IsSamePass};
ghost use Rattle.set_model.specs.declared.call.Call.TheVariants.{Insert};
ghost use Rattle.step_core.specs.Limits.{max_calls};
ghost use Rattle.step_core.specs.Rising.{Change};

use super::{begin_alone, begin_two, end_alone, end_two};
use crate::*;
use std::test::Fail;
use std::thread;
use step_core::{FIRST_BUCKET, live_keys};

// A block for a row.
fn draw_row(round: &Round, pass: &mut Pass, len: u64) -> Result<Block, Full>
    requires pass { IsPassOf round.now pass.old }
    requires fits { (1 ≤ len) × (len ≤ 1000) }
    ensures pass { IsSamePass pass.old pass.new }
    ensures none { (pass.new.view.flight ≡ pass.old.view.flight)
        × (pass.new.view.used ≡ pass.old.view.used) }
    ensures front { pass.new.view.front ≡ pass.old.view.front }
    ensures block { IfOk result (λ block. length (words_at pass.new.view.hands block.at) ≡ len) }
{
    round.draw(pass, len)
}

// An exchange that may be made.
#[derive(Drop)]
struct Ready {
    place: u64,
    word: u64,
    block: Block,
}

// One turn up to its exchange, which puts the key into the only bucket. The bucket is loaded: it must
// be neither nil nor frozen, and its row have no keys. The block is written anew.
fn ready_to_put(round: &Round, pass: &mut Pass, mut block: Block, key: u64) -> Result<Ready, Block>
    requires pass { IsPassOf round.now pass.old }
    requires flight { pass.old.view.flight ≡ None }
    requires block { length (words_at pass.old.view.hands block.at) ≡ 4 }
    ensures pass { IsSamePass pass.old pass.new }
    ensures none { (pass.new.view.flight ≡ None) × (pass.new.view.used ≡ pass.old.view.used) }
    ensures ready { IfOk result
        (λ ready. MaySwapRow pass.new.view ready.place ready.word ready.block.at) }
    ensures change { IfOk result (λ ready. swap_change pass.new.view ready.word ready.block.at
        ≡ Some (record { call = Insert; key = key })) }
    ensures block { IfOk result (λ ready. ready.block ≡ block) }
    ensures long { length (words_at pass.new.view.hands block.at) ≡ 4 }
    ensures alone { pass.old.view.facts.seats ≡ 1 → pass.new.view.front ≡ pass.old.view.front }
{
    let head = round.load_head(pass);
    round.sound(pass);
    let exponent = round.load_sealed(pass, head);
    round.sound(pass);
    let word = round.load_bucket(pass, head + FIRST_BUCKET);
    round.sound(pass);
    if exponent != 0 || word == 0 || word % 2 == 1 {
        return Err(block);
    }
    let count = round.load_sealed(pass, word / 2);
    if count != 0 {
        return Err(block);
    }
    round.sound(pass);
    round.write(pass, &mut block, 0, 1);
    round.write(pass, &mut block, 1, 0);
    round.write(pass, &mut block, 2, 0);
    round.write(pass, &mut block, 3, key);
    round.sound(pass);
    Ok(Ready {
        place: head + FIRST_BUCKET,
        word,
        block,
    })
}

// One turn up to its exchange, which takes the only key out of the only bucket, where that is neither
// nil nor frozen. The block has room for a row without keys.
fn ready_to_take(round: &Round, pass: &mut Pass, mut block: Block) -> Result<Ready, Block>
    requires pass { IsPassOf round.now pass.old }
    requires flight { pass.old.view.flight ≡ None }
    requires block { length (words_at pass.old.view.hands block.at) ≡ 3 }
    ensures pass { IsSamePass pass.old pass.new }
    ensures none { (pass.new.view.flight ≡ None) × (pass.new.view.used ≡ pass.old.view.used) }
    ensures ready { IfOk result
        (λ ready. MaySwapRow pass.new.view ready.place ready.word ready.block.at) }
{
    let head = round.load_head(pass);
    round.sound(pass);
    let exponent = round.load_sealed(pass, head);
    round.sound(pass);
    let word = round.load_bucket(pass, head + FIRST_BUCKET);
    round.sound(pass);
    if exponent != 0 || word == 0 || word % 2 == 1 {
        return Err(block);
    }
    let count = round.load_sealed(pass, word / 2);
    if count != 1 {
        return Err(block);
    }
    round.sound(pass);
    round.write(pass, &mut block, 0, 0);
    round.write(pass, &mut block, 1, 0);
    round.write(pass, &mut block, 2, 0);
    round.sound(pass);
    Ok(Ready {
        place: head + FIRST_BUCKET,
        word,
        block,
    })
}

// The exchange. Where it is lost, the block is in hand as it was.
fn exchange(round: &Round, pass: &mut Pass, ready: Ready) -> Result<(), LostBlock>
    requires pass { IsPassOf round.now pass.old }
    requires call { HasNewCall pass.old }
    requires ready { MaySwapRow pass.old.view ready.place ready.word ready.block.at }
    ensures pass { IsSamePass pass.old pass.new }
    ensures flight { pass.new.view.flight ≡ None }
    ensures lost { IfErr result (λ lost. (lost.block ≡ ready.block)
        × (pass.new.view.hands ≡ pass.old.view.hands)
        × (pass.new.view.used ≡ pass.old.view.used)) }
{
    round.swap_row(pass, ready.place, ready.word, ready.block)
}

// The only pass of a round puts the key into the only bucket, by a block that begins at the place
// given. Its front has one entry more: a lone pass loses no exchange.
fn put_alone(round: &Round, pass: &mut Pass, key: u64) -> Option<u64>
    requires pass { IsPassOf round.now pass.old }
    requires alone { pass.old.view.facts.seats ≡ 1 }
    requires flight { pass.old.view.flight ≡ None }
    requires few { pass.old.calls < max_calls }
    ensures pass { IsPassOf round.now pass.new × (pass.new.view.number ≡ pass.old.view.number) }
    ensures front { IfSome result (λ _. pass.new.view.front ≡ pass.old.view.front ++ record {
      who = pass.old.view.number;
      serial = pass.old.calls;
      call = Insert;
      key = key;
      answer = true;
    } ∷ []) }
{
    round.begin_call(pass);
    let Ok(block) = draw_row(round, pass, 4) else {
        return None;
    };
    let Ok(ready) = ready_to_put(round, pass, block, key) else {
        return None;
    };
    let place = ready.block.at();
    match round.swap_row(pass, ready.place, ready.word, ready.block) {
        Ok(()) => Some(place),
        Err(_) => None,
    }
}

// The opening has 10 words: 14 at word 6 names the row at 7.
#[test]
fn a_won_exchange_is_an_insert(rt: HostRuntime) -> Result<(), Fail> {
    let (round, mut pass) = begin_alone(rt.alloc(), &[], 100)?;
    assert_eq!(rt; put_alone(&round, &mut pass, 1), Some(10));
    assert_eq!(rt; pass.calls(), 1);
    let words = end_alone(rt.alloc(), round, pass)?;
    assert_eq!(rt; words.as_slice().get(6), Some(&20));
    assert_eq!(rt; words.as_slice().get(1), Some(&14));
    assert_eq!(rt; live_keys(rt.alloc(), &words)?.as_slice(), [1].as_slice());
    Ok(())
}

// The pass takes the only key out of the only bucket, by one exchange, where it isn't lost.
fn take_only_key(round: &Round, pass: &mut Pass) -> bool
    requires pass { IsPassOf round.now pass.old }
    requires flight { pass.old.view.flight ≡ None }
    requires few { pass.old.calls < max_calls }
    ensures pass { IsPassOf round.now pass.new × (pass.new.view.number ≡ pass.old.view.number) }
{
    round.begin_call(pass);
    let Ok(block) = draw_row(round, pass, 3) else {
        return false;
    };
    let Ok(ready) = ready_to_take(round, pass, block) else {
        return false;
    };
    exchange(round, pass, ready).is_ok()
}

// Two passes load one bucket and exchange it. The loser's block is written anew, and wins once the
// bucket has no key again. Then that key is taken out.
#[test]
fn a_lost_exchange_gives_its_block_back(rt: HostRuntime) -> Result<(), Fail> {
    let (round, mut first, mut second) = begin_two(rt.alloc(), 100)?;
    round.begin_call(&mut first);
    round.begin_call(&mut second);
    let Ok(one) = draw_row(&round, &mut first, 4) else {
        panic!(rt; "there is room for 4 words")
    };
    let Ok(other) = draw_row(&round, &mut second, 4) else {
        panic!(rt; "there is room for 4 words")
    };
    let Ok(one) = ready_to_put(&round, &mut first, one, 1) else {
        panic!(rt; "the bucket has no key")
    };
    let Ok(other) = ready_to_put(&round, &mut second, other, 2) else {
        panic!(rt; "the bucket has no key yet")
    };
    assert_eq!(rt; (one.place, one.word, one.block.at()), (7, 16, 11));
    assert_eq!(rt; (other.place, other.word, other.block.at()), (7, 16, 15));
    assert!(rt; exchange(&round, &mut first, one).is_ok());
    let Err(lost) = exchange(&round, &mut second, other) else {
        panic!(rt; "the word is another")
    };
    assert_eq!(rt; (lost.found, lost.block.at()), (22, 15));

    assert!(rt; take_only_key(&round, &mut first));
    let Ok(again) = ready_to_put(&round, &mut second, lost.block, 3) else {
        panic!(rt; "the bucket has no key again")
    };
    assert_eq!(rt; (again.word, again.block.at()), (38, 15));
    assert!(rt; exchange(&round, &mut second, again).is_ok());
    assert!(rt; take_only_key(&round, &mut second));
    let words = end_two(rt.alloc(), round, first, second)?;
    assert_eq!(rt; words.as_slice().get(7), Some(&44));
    assert_eq!(rt; live_keys(rt.alloc(), &words)?.as_slice(), [].as_slice());
    Ok(())
}

// What one try came to.
#[derive(Clone, Copy, Debug, PartialEq, Eq)]
enum Tried {
    // The exchange was won.
    Won,
    // It found this word.
    Lost(u64),
    // The bucket had a key already, or there was no room.
    Late,
}

// A pass after one try, and where the block that it drew begins.
#[derive(Drop)]
struct Attempt {
    pass: Pass,
    at: u64,
    tried: Tried,
}

fn try_to_put(round: &Round, mut pass: Pass, key: u64) -> Attempt
    requires pass { IsPassOf round.now pass }
    requires flight { pass.view.flight ≡ None }
    requires few { pass.calls < max_calls }
    ensures pass { IsPassOf round.now result.pass }
    ensures number { result.pass.view.number ≡ pass.view.number }
{
    round.begin_call(&mut pass);
    let Ok(block) = draw_row(round, &mut pass, 4) else {
        return Attempt {
            pass,
            at: 0,
            tried: Tried::Late,
        };
    };
    let at = block.at();
    let tried = match ready_to_put(round, &mut pass, block, key) {
        Ok(ready) => match exchange(round, &mut pass, ready) {
            Ok(()) => Tried::Won,
            Err(lost) => Tried::Lost(lost.found),
        },
        Err(_) => Tried::Late,
    };
    Attempt { pass, at, tried }
}

// Of two threads one wins, and the other finds its word or comes too late.
#[test]
fn of_two_threads_one_wins(rt: HostRuntime) -> Result<(), Fail> {
    let (round, first, second) = begin_two(rt.alloc(), 100)?;
    let shared = &round;
    let (first, second) = thread::join(
        &rt,
        move || try_to_put(shared, first, 1),
        move || try_to_put(shared, second, 2),
    );
    let (winner, loser, key) = match first.tried {
        Tried::Won => (first.at, second.tried, 1),
        _ => (second.at, first.tried, 2),
    };
    assert!(rt; (first.tried == Tried::Won) != (second.tried == Tried::Won));
    if let Tried::Lost(found) = loser {
        assert_eq!(rt; found, winner.saturating_mul(2));
    }
    let words = end_two(rt.alloc(), round, first.pass, second.pass)?;
    assert_eq!(rt; live_keys(rt.alloc(), &words)?.as_slice(), [key].as_slice());
    Ok(())
}
