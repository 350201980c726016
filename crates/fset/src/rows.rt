// Building a row in a block in hand, word by word.
ghost use Rattle.std.specs.Prelude.{◌≡◌, ◌+◌, ◌-◌, ◌<◌, ◌≤◌, false, length, slice_range, IfOk, IfErr};
ghost use Rattle.std.specs.List.{remove};
ghost use Rattle.arena.specs.Hands.{words_at};
ghost use Rattle.cells.specs.Frames.{after_reads};
ghost use Rattle.cells.specs.Known.{keys_at};
ghost use Rattle.cells.specs.Steps.{RefusesDraw, Writes};
ghost use Rattle.cells.specs.Tokens.{IsPassOf, IsSamePass};
ghost use Rattle.fset.specs.Content.{seen_keys};
ghost use Rattle.fset.specs.Frames.{row_cost};
ghost use Rattle.fset.specs.Rows.{Builds, RefusesRow, StartsRow, changed_keys};
ghost use Rattle.fset.specs.Seen.{KnowsRowAt, IsSeen};
ghost use Rattle.set_model.specs.Keys.{is_in};
ghost use Rattle.step_core.specs.Limits.{max_draw};
ghost use Rattle.step_core.specs.Rising.{ChangesKeys, keys_after_call, place_in, with_key};

use crate::Seen;
use crate::content::{key_at, place_among};
use cells::{Block, Full, Pass, Round};
use set_model::Call;
use step_core::FIRST_KEY;

/// Builds a row of the content with the key put in or taken out, word by word, in a block in hand. The
/// call must change the content. It is Full only where the pass was spent, or is spent by a draw of the
/// row's words.
pub fn build_changed(
    round: &Round,
    pass: &mut Pass,
    seen: &Seen,
    call: Call,
    key: u64,
) -> Result<Block, Full>
    requires pass { IsPassOf round.now pass.old }
    requires knows { IsSeen pass.old.view seen.now }
    requires changes { ChangesKeys call key (seen_keys pass.old.view seen.now) }
    ensures pass { IsSamePass pass.old pass.new }
    ensures answer { IfOk result (λ block.
        Builds (changed_keys call key pass.old.view seen.now) block pass.old.view pass.new.view) }
    ensures full { IfErr result (λ _.
        RefusesRow (changed_keys call key pass.old.view seen.now) pass.old.view pass.new.view) }
{
    // No operation is published yet, so the content is the keys.
    round.sound(pass);
    let place = place_among(round, pass, seen, key);
    build_at(round, pass, seen, call, key, place.before)
}

// The same where it is known how many keys of the row are below the key.
pub(crate) fn build_at(
    round: &Round,
    pass: &mut Pass,
    seen: &Seen,
    call: Call,
    key: u64,
    before: u64,
) -> Result<Block, Full>
    requires pass { IsPassOf round.now pass.old }
    requires knows { IsSeen pass.old.view seen.now }
    requires changes { ChangesKeys call key (keys_at pass.old.view seen.now.at) }
    requires before { before ≡ place_in (keys_at pass.old.view seen.now.at) key }
    requires within { before ≤ seen.now.count }
    ensures pass { IsSamePass pass.old pass.new }
    ensures answer { IfOk result (λ block.
        Builds (keys_after_call call key (keys_at pass.old.view seen.now.at)) block
        pass.old.view pass.new.view) }
    ensures full { IfErr result (λ _.
        RefusesRow (keys_after_call call key (keys_at pass.old.view seen.now.at))
        pass.old.view pass.new.view) }
{
    round.sound(pass);
    match call {
        Call::Insert => build_with(round, pass, seen, key, before),
        Call::Remove => build_without(round, pass, seen, before),
        Call::Contains => unreachable!(),
    }
}

// A row of the keys and one that isn't among them.
fn build_with(
    round: &Round,
    pass: &mut Pass,
    seen: &Seen,
    key: u64,
    before: u64,
) -> Result<Block, Full>
    requires pass { IsPassOf round.now pass.old }
    requires knows { IsSeen pass.old.view seen.now }
    requires absent { is_in (keys_at pass.old.view seen.now.at) key ≡ false }
    requires before { before ≡ place_in (keys_at pass.old.view seen.now.at) key }
    requires within { before ≤ seen.now.count }
    ensures pass { IsSamePass pass.old pass.new }
    ensures answer { IfOk result (λ block.
        Builds (with_key key (keys_at pass.old.view seen.now.at)) block
        pass.old.view pass.new.view) }
    ensures full { IfErr result (λ _.
        RefusesRow (with_key key (keys_at pass.old.view seen.now.at))
        pass.old.view pass.new.view) }
{
    round.sound(pass);
    let Ok(mut block) = start_row(round, pass, seen.count + 1) else {
        return Err(Full);
    };
    let middle = FIRST_KEY + before;
    copy_keys(round, pass, &mut block, seen.at, 0, before, FIRST_KEY);
    round.write(pass, &mut block, middle, key);
    let behind = middle + 1;
    copy_keys(round, pass, &mut block, seen.at, before, seen.count, behind);
    Ok(block)
}

// A row of the keys without the one that has so many before it.
fn build_without(round: &Round, pass: &mut Pass, seen: &Seen, before: u64) -> Result<Block, Full>
    requires pass { IsPassOf round.now pass.old }
    requires knows { IsSeen pass.old.view seen.now }
    requires within { before < seen.now.count }
    ensures pass { IsSamePass pass.old pass.new }
    ensures answer { IfOk result (λ block.
        Builds (remove (keys_at pass.old.view seen.now.at) before) block
        pass.old.view pass.new.view) }
    ensures full { IfErr result (λ _.
        RefusesRow (remove (keys_at pass.old.view seen.now.at) before)
        pass.old.view pass.new.view) }
{
    round.sound(pass);
    let Ok(mut block) = start_row(round, pass, seen.count - 1) else {
        return Err(Full);
    };
    let middle = FIRST_KEY + before;
    copy_keys(round, pass, &mut block, seen.at, 0, before, FIRST_KEY);
    let next = before + 1;
    copy_keys(round, pass, &mut block, seen.at, next, seen.count, middle);
    Ok(block)
}

// Draws a block for a row of so many keys, and writes the words before the keys.
pub(crate) fn start_row(round: &Round, pass: &mut Pass, count: u64) -> Result<Block, Full>
    requires pass { IsPassOf round.now pass.old }
    requires fits { row_cost count ≤ max_draw }
    ensures pass { IsSamePass pass.old pass.new }
    ensures answer { IfOk result (λ block. StartsRow count block pass.old.view pass.new.view) }
    ensures full { IfErr result (λ _. RefusesDraw pass.old.view (row_cost count) pass.new.view) }
{
    let Ok(mut block) = round.draw(pass, FIRST_KEY + count) else {
        return Err(Full);
    };
    round.write(pass, &mut block, 0, count);
    round.write(pass, &mut block, 1, 0);
    round.write(pass, &mut block, 2, 0);
    Ok(block)
}

// Copies the keys of a known row from one number up to another into the block, from the offset on.
fn copy_keys(
    round: &Round,
    pass: &mut Pass,
    block: &mut Block,
    row: u64,
    from: u64,
    to: u64,
    offset: u64,
)
    requires pass { IsPassOf round.now pass.old }
    requires knows { KnowsRowAt pass.old.view row }
    requires part { (from ≤ to) × (to ≤ length (keys_at pass.old.view row)) }
    requires room { offset + (to - from) ≤ length (words_at pass.old.view.hands block.old.at) }
    ensures pass { IsSamePass pass.old pass.new }
    ensures block { block.new ≡ block.old }
    ensures writes { Writes block.old.at offset (slice_range (keys_at pass.old.view row) from to)
        (after_reads (to - from) pass.old.view) pass.new.view }
{
    round.sound(pass);
    for i in from..to {
        let key = key_at(round, pass, row, i);
        round.write(pass, block, offset + (i - from), key);
    }
}
