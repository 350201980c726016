// A pass that is the only one, by public clauses alone: its ledger tells what each step finds.
ghost use Rattle.std.specs.Prelude.{◌≡◌, ◌≤◌, ◌+◌, ◌<◌, ◌^◌, false, IfOk, is_err};
ghost use Rattle.cells.specs.Known.{keys_at};
ghost use Rattle.cells.specs.Lone.{EndsAs, ledger_of};
ghost use Rattle.cells.specs.Tokens.{IsPassOf, IsSamePass};
ghost use Rattle.step_core.specs.Format.{IsMutable, IsNil, row_address};
ghost use Rattle.step_core.specs.Ledger.{bucket_keys, drawing};
ghost use Rattle.step_core.specs.Limits.{max_draw};

use super::{begin_alone, end_alone};
use crate::*;
use std::test::Fail;
use step_core::FIRST_BUCKET;

// Draws: where the block lies, and whether it is Full, is what the ledger says.
fn draw_as_told(round: &Round, pass: &mut Pass, len: u64) -> Result<u64, Full>
    requires pass { IsPassOf round.now pass.old }
    requires alone { pass.old.view.facts.seats ≡ 1 }
    requires fits { (1 ≤ len) × (len ≤ max_draw) }
    ensures pass { IsSamePass pass.old pass.new }
    ensures ends { EndsAs (drawing len (ledger_of pass.old.view)) (is_err result) pass.new.view }
    ensures place { IfOk result (λ at. at ≡ (ledger_of pass.old.view).next) }
{
    match round.draw(pass, len) {
        Ok(block) => Ok(block.at()),
        Err(Full) => Err(Full),
    }
}

// The word of the head's first bucket, which isn't untouched. It isn't nil and not frozen, its row has
// what the ledger says, and the pass has lost no turn.
fn load_first_bucket(round: &Round, pass: &mut Pass) -> u64
    requires pass { IsPassOf round.now pass.old }
    requires alone { pass.old.view.facts.seats ≡ 1 }
    requires filled { (ledger_of pass.old.view).untouched 0 ≡ false }
    ensures pass { IsSamePass pass.old pass.new }
    ensures ledger { ledger_of pass.new.view ≡ ledger_of pass.old.view }
    ensures filled { ¬ IsNil result }
    ensures mutable { IsMutable result }
    ensures row { keys_at pass.new.view (row_address result)
        ≡ bucket_keys 0 (ledger_of pass.new.view) }
    ensures lost { pass.new.view.lost ≡ 0 }
{
    let head = round.load_head(pass);
    round.sound(pass);
    let word = round.load_bucket(pass, head + FIRST_BUCKET);
    round.sound(pass);
    word
}

// 19 words are the opening's, and 4 are room. The row of bucket 0 stands at 8.
#[test]
fn the_ledger_tells_where_blocks_lie_and_when_there_is_none(rt: HostRuntime) -> Result<(), Fail> {
    let (round, mut pass) = begin_alone(rt.alloc(), &[1, 2, 3, 4, 5], 4)?;
    assert_eq!(rt; load_first_bucket(&round, &mut pass), 16);
    assert_eq!(rt; draw_as_told(&round, &mut pass, 3), Ok(19));
    assert_eq!(rt; draw_as_told(&round, &mut pass, 2), Err(Full));
    assert_eq!(rt; draw_as_told(&round, &mut pass, 1), Err(Full));
    assert_eq!(rt; load_first_bucket(&round, &mut pass), 16);
    let words = end_alone(rt.alloc(), round, pass)?;
    assert_eq!(rt; words.as_slice().get(1), Some(&24));
    Ok(())
}
