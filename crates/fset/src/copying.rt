// Building a row of keys that are taken one by one.
ghost use Rattle.std.specs.Prelude.{◌≡◌, ◌+◌, ◌≤◌, length, IfOk, IfErr};
ghost use Rattle.arena.specs.Hands.{words_at};
ghost use Rattle.cells.specs.Tokens.{IsPassOf, IsSamePass};
ghost use Rattle.fset.specs.Frames.{row_cost};
ghost use Rattle.fset.specs.Rows.{Builds, RefusesRow};
ghost use Rattle.fset.specs.Taking.{Copies, LoadsNothingNew};
ghost use Rattle.step_core.specs.Limits.{max_draw};

use crate::rows::start_row;
use crate::taking::KeySource;
use cells::{Block, Full, Pass, Round};
use step_core::FIRST_KEY;

// Builds a row of the keys that are left. It is Full only where the pass was spent, or is spent by a
// draw of the row's words.
pub(crate) fn build_from<K: KeySource>(
    round: &Round,
    pass: &mut Pass,
    keys: K,
) -> Result<Block, Full>
    requires pass { IsPassOf round.now pass.old }
    requires knows { K.are_known pass.old.view.known keys }
    requires fits { row_cost (length (K.left pass.old.view.known keys)) ≤ max_draw }
    ensures pass { IsSamePass pass.old pass.new }
    ensures answer { IfOk result (λ block.
        Builds (K.left pass.old.view.known keys) block pass.old.view pass.new.view) }
    ensures full { IfErr result (λ _.
        RefusesRow (K.left pass.old.view.known keys) pass.old.view pass.new.view) }
{
    // The keys are counted first, since the block is drawn before they are written.
    let count = count_left(round, pass, keys);
    let Ok(mut block) = start_row(round, pass, count) else {
        return Err(Full);
    };
    copy_left(round, pass, &mut block, keys);
    Ok(block)
}

// How many keys are left.
fn count_left<K: KeySource>(round: &Round, pass: &mut Pass, keys: K) -> u64
    requires pass { IsPassOf round.now pass.old }
    requires knows { K.are_known pass.old.view.known keys }
    requires fits { row_cost (length (K.left pass.old.view.known keys)) ≤ max_draw }
    ensures pass { IsSamePass pass.old pass.new }
    ensures count { result ≡ length (K.left pass.old.view.known keys) }
    ensures view { LoadsNothingNew pass.old.view pass.new.view }
{
    let mut left = keys;
    let mut count = 0;
    while let Some(_) = left.take_first(round, pass) {
        count += 1;
    }
    count
}

// Writes the keys that are left into the block of a row.
fn copy_left<K: KeySource>(round: &Round, pass: &mut Pass, block: &mut Block, keys: K)
    requires pass { IsPassOf round.now pass.old }
    requires knows { K.are_known pass.old.view.known keys }
    requires room { row_cost (length (K.left pass.old.view.known keys))
        ≤ length (words_at pass.old.view.hands block.old.at) }
    ensures pass { IsSamePass pass.old pass.new }
    ensures block { block.new ≡ block.old }
    ensures copies { Copies block.old.at FIRST_KEY (K.left pass.old.view.known keys)
        pass.old.view pass.new.view }
{
    round.sound(pass);
    let mut left = keys;
    let mut place = FIRST_KEY;
    while let Some(key) = left.take_first(round, pass) {
        round.write(pass, block, place, key);
        place += 1;
    }
}
