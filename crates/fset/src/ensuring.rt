// Filling a bucket from the generation before.
ghost use Rattle.std.specs.Prelude.{◌≡◌, IfErr, IfOk, OnErr, OnOk, is_err};
ghost use Rattle.cells.specs.Tokens.{IsPassOf, IsSamePass};
ghost use Rattle.fset.specs.Alone.{BuildsAlone, ClosesAlone, FillsAlone};
ghost use Rattle.fset.specs.Ensuring.{
  BuildsFilling,
  ClosesBucket,
  EnsuresFilled,
  IsFilling,
  IsSource,
  KnowsBucketAt,
  RefusesFilling,
};

use crate::{Seen, build_joined, build_split, read_row};
use cells::{Block, Full, Pass, Round};
use step_core::{FIRST_BUCKET, bucket_count, predecessor_place, row_address};

/// Fills the bucket of the generation at the address `head`, which the pass must know, where it is
/// nil: from the buckets of the generation before that share a key's spot with it, one after a growth
/// and two after a shrink, which it freezes. No call takes effect by it. The bucket isn't nil then,
/// whether this pass filled it or another; one that is filled already costs the draw all the same.
///
/// It is Full only where the pass was spent, or is spent by the draw of the row's words. A generation
/// without one before has no nil bucket, and nothing is done but to read that. For the only pass of a
/// round, its ledger says how the fill of a nil bucket of the head ends.
///
/// After Liu, Zhang and Spear, Dynamic-sized nonblocking hash tables (PODC 2014).
pub fn ensure(round: &Round, pass: &mut Pass, head: u64, bucket: u64) -> Result<(), Full>
    requires pass { IsPassOf round.now pass.old }
    requires knows { KnowsBucketAt pass.old.view head bucket }
    ensures pass { IsSamePass pass.old pass.new }
    ensures answer { OnOk result (EnsuresFilled head bucket pass.old.view pass.new.view) }
    ensures full { OnErr result (RefusesFilling head bucket pass.old.view pass.new.view) }
    ensures ledger { FillsAlone head bucket (is_err result) pass.old.view pass.new.view }
{
    round.sound(pass);
    let exponent = round.load_sealed(pass, head);
    let predecessor = round.load_sealed(pass, predecessor_place(head));
    if predecessor == 0 {
        return Ok(());
    }
    let before = round.load_sealed(pass, predecessor);
    round.sound(pass);
    let filling = Filling {
        head,
        bucket,
        exponent: exponent as u32,
        predecessor,
        before: before as u32,
    };
    let Ok(block) = build_filling(round, pass, &filling) else {
        return Err(Full);
    };
    round.sound(pass);
    // Where the exchange is lost, another pass has filled the bucket, and the block isn't used again.
    let _ = round.init_bucket(pass, head + FIRST_BUCKET + bucket, block);
    Ok(())
}

// A bucket to be filled, and what it is filled from.
#[derive(Clone, Copy)]
struct Filling {
    // The address of the bucket's generation.
    head: u64,
    // The bucket, from 0.
    bucket: u64,
    // The exponent of its generation.
    exponent: u32,
    // The address of the generation before.
    predecessor: u64,
    // The exponent of that.
    before: u32,
}

// Freezes the sources of the bucket, and builds the row that it is filled with. It is Full only where
// the pass was spent, or is spent by the draw of the row's words.
fn build_filling(round: &Round, pass: &mut Pass, filling: &Filling) -> Result<Block, Full>
    requires pass { IsPassOf round.now pass.old }
    requires knows { IsFilling pass.old.view filling.now }
    ensures pass { IsSamePass pass.old pass.new }
    ensures answer { IfOk result (λ block.
        BuildsFilling filling.now block pass.old.view pass.new.view) }
    ensures full { OnErr result (RefusesFilling filling.now.head filling.now.bucket
        pass.old.view pass.new.view) }
    ensures ledger { BuildsAlone filling.now.head filling.now.bucket (is_err result)
        pass.old.view pass.new.view }
{
    round.sound(pass);
    if filling.before < filling.exponent {
        let source = filling.bucket % bucket_count(filling.before);
        let row = close_bucket(round, pass, filling.predecessor, source);
        round.sound(pass);
        let built = build_split(round, pass, &row, filling.exponent, filling.bucket);
        round.sound(pass);
        return built;
    }
    let low = close_bucket(round, pass, filling.predecessor, filling.bucket);
    round.sound(pass);
    let other = filling.bucket + bucket_count(filling.exponent);
    let high = close_bucket(round, pass, filling.predecessor, other);
    round.sound(pass);
    let built = build_joined(round, pass, &low, &high);
    round.sound(pass);
    built
}

// Freezes the bucket of the generation at the address, which another is known to follow, and reads
// its row.
fn close_bucket(round: &Round, pass: &mut Pass, at: u64, bucket: u64) -> Seen
    requires pass { IsPassOf round.now pass.old }
    requires knows { IsSource pass.old.view at bucket }
    ensures pass { IsSamePass pass.old pass.new }
    ensures answer { ClosesBucket at bucket pass.old.view result pass.new.view }
    ensures ledger { pass.old.view.facts.seats ≡ 1
        → ClosesAlone at bucket pass.old.view result pass.new.view }
{
    round.sound(pass);
    let word = round.freeze(pass, at + FIRST_BUCKET + bucket);
    round.sound(pass);
    let row = read_row(round, pass, row_address(word));
    round.sound(pass);
    row
}
