// Exchanging the head for a generation of another size.
ghost use Rattle.std.specs.Prelude.{◌≡◌, ◌≤◌, ◌≢◌, IfNone, IfOk, IfErr, IfSome, OnErr, OnOk, is_err};
ghost use Rattle.buckets.specs.Alone.{
  EndsResizeAlone,
  FillsFirstAlone,
  FillsOneAlone,
  IsExponentAlone,
  LoadsAlone,
};
ghost use Rattle.buckets.specs.Filling.{
  FillsFirst,
  FillsOne,
  KnowsExponent,
  RefusesFirst,
  RefusesOne,
  buckets_of,
};
ghost use Rattle.buckets.specs.Resizing.{
  BuildsNext,
  EndsResize,
  IsExponent,
  IsHalf,
  IsNextBy,
  IsTwice,
  LoadsExponent,
  limit_of,
  RefusesNext,
  generation_cost,
};
ghost use Rattle.cells.specs.Lone.{EndsAlone};
ghost use Rattle.cells.specs.Tokens.{IsPassOf, IsSamePass};
ghost use Rattle.fset.specs.Ensuring.{KnowsBucketAt};
ghost use Rattle.fset.specs.Seeking.{KnowsGenerationAt};
ghost use Rattle.step_core.specs.Ledger.{drawing};
ghost use Rattle.step_core.specs.Limits.{max_exponent};

use crate::Resized;
use cells::{Block, Full, Pass, Round};
use fset::ensure;
use step_core::{FIRST_BUCKET, MAX_EXPONENT, bucket_count};

/// Exchanges the head for a generation of twice as many buckets, all nil. First it fills each bucket of
/// the head that is nil. No call takes effect by it, and at most the turn that it opens is lost.
///
/// It is AtLimit only where the exponent of the head that it loaded is 24, and draws nothing then; Full
/// only where the pass was spent, or a draw passed the end, and some buckets may be filled then; and
/// Moved only where another pass had exchanged the head since. For the only pass of a round, its ledger
/// says which of these it is, and which draws are made.
///
/// After Liu, Zhang and Spear, Dynamic-sized nonblocking hash tables (PODC 2014).
pub fn grow(round: &Round, pass: &mut Pass) -> Resized
    requires pass { IsPassOf round.now pass.old }
    ensures pass { IsSamePass pass.old pass.new }
    ensures answer { EndsResize max_exponent IsTwice result pass.old.view pass.new.view }
    ensures ledger { pass.old.view.facts.seats ≡ 1
        → EndsResizeAlone max_exponent IsTwice result pass.old.view pass.new.view }
{
    resize(round, pass, Way::Grow)
}

/// Exchanges the head for a generation of half as many buckets, all nil. It is AtLimit only where the
/// exponent of the head that it loaded is 0, and else as `grow`.
///
/// After Liu, Zhang and Spear, Dynamic-sized nonblocking hash tables (PODC 2014).
pub fn shrink(round: &Round, pass: &mut Pass) -> Resized
    requires pass { IsPassOf round.now pass.old }
    ensures pass { IsSamePass pass.old pass.new }
    ensures answer { EndsResize 0 IsHalf result pass.old.view pass.new.view }
    ensures ledger { pass.old.view.facts.seats ≡ 1
        → EndsResizeAlone 0 IsHalf result pass.old.view pass.new.view }
{
    resize(round, pass, Way::Shrink)
}

/// The exponent of the head: the table has 2 to its power buckets.
pub fn exponent(round: &Round, pass: &mut Pass) -> u32
    requires pass { IsPassOf round.now pass.old }
    ensures pass { IsSamePass pass.old pass.new }
    ensures answer { IsExponent result pass.old.view pass.new.view }
    ensures ledger { IsExponentAlone result pass.old.view pass.new.view }
{
    load_head(round, pass).exponent
}

// Which way a table is resized.
#[derive(Clone, Copy)]
pub(crate) enum Way {
    Grow,
    Shrink,
}

impl Way {
    // The exponent that comes next. None where there is no further one.
    pub(crate) fn next(self, exponent: u32) -> Option<u32>
        requires small { exponent ≤ max_exponent }
        ensures next { IfSome result (λ next. IsNextBy self exponent next × (next ≤ max_exponent)) }
        ensures limit { IfNone result (exponent ≡ limit_of self) }
    {
        match self {
            Way::Grow if exponent < MAX_EXPONENT => Some(exponent + 1),
            Way::Grow => None,
            Way::Shrink => exponent.checked_sub(1),
        }
    }
}

// A generation that was loaded as the head.
#[derive(Clone, Copy)]
pub(crate) struct Head {
    // Its address.
    pub(crate) at: u64,
    // Its exponent.
    pub(crate) exponent: u32,
}

// Resizes the table to the exponent that comes next.
fn resize(round: &Round, pass: &mut Pass, way: Way) -> Resized
    requires pass { IsPassOf round.now pass.old }
    ensures pass { IsSamePass pass.old pass.new }
    ensures answer { EndsResize (limit_of way) (IsNextBy way) result
        pass.old.view pass.new.view }
    ensures ledger { pass.old.view.facts.seats ≡ 1
        → EndsResizeAlone (limit_of way) (IsNextBy way) result pass.old.view pass.new.view }
{
    let head = load_head(round, pass);
    round.sound(pass);
    let Some(exponent) = way.next(head.exponent) else {
        return Resized::AtLimit;
    };
    let Ok(()) = fill_head(round, pass, head) else {
        return Resized::Full;
    };
    round.sound(pass);
    let Ok(block) = build_next(round, pass, head.at, exponent) else {
        return Resized::Full;
    };
    round.sound(pass);
    match round.swap_head(pass, head.at, block) {
        Ok(()) => Resized::Changed { exponent },
        Err(lost) => Resized::Moved { head: lost.found },
    }
}

// Loads the head and its exponent.
pub(crate) fn load_head(round: &Round, pass: &mut Pass) -> Head
    requires pass { IsPassOf round.now pass.old }
    ensures pass { IsSamePass pass.old pass.new }
    ensures answer { LoadsExponent result.at result.exponent pass.old.view pass.new.view }
    ensures small { result.exponent ≤ max_exponent }
    ensures ledger { pass.old.view.facts.seats ≡ 1
        → LoadsAlone result.at result.exponent pass.old.view pass.new.view }
{
    let at = round.load_head(pass);
    let exponent = round.load_sealed(pass, at);
    round.sound(pass);
    Head {
        at,
        exponent: exponent as u32,
    }
}

// Loads each bucket of the generation, which the pass knows, and fills those that are nil.
pub(crate) fn fill_head(round: &Round, pass: &mut Pass, head: Head) -> Result<(), Full>
    requires pass { IsPassOf round.now pass.old }
    requires head { KnowsExponent pass.old.view head.at head.exponent }
    ensures pass { IsSamePass pass.old pass.new }
    ensures answer { OnOk result (FillsFirst head.at head.exponent (buckets_of head.exponent)
        pass.old.view pass.new.view) }
    ensures full { OnErr result (RefusesFirst head.exponent pass.old.view pass.new.view) }
    ensures ledger { FillsFirstAlone head.at (buckets_of head.exponent) (is_err result)
        pass.old.view pass.new.view }
{
    round.sound(pass);
    for bucket in 0..bucket_count(head.exponent) {
        fill(round, pass, head.at, bucket)?;
    }
    Ok(())
}

// Loads the bucket of the generation at the address, and fills it where it is nil.
fn fill(round: &Round, pass: &mut Pass, at: u64, bucket: u64) -> Result<(), Full>
    requires pass { IsPassOf round.now pass.old }
    requires knows { KnowsBucketAt pass.old.view at bucket }
    ensures pass { IsSamePass pass.old pass.new }
    ensures answer { OnOk result (FillsOne at bucket pass.old.view pass.new.view) }
    ensures full { OnErr result (RefusesOne pass.old.view pass.new.view) }
    ensures ledger { FillsOneAlone at bucket (is_err result) pass.old.view pass.new.view }
{
    round.sound(pass);
    if round.load_bucket(pass, at + FIRST_BUCKET + bucket) == 0 {
        round.sound(pass);
        ensure(round, pass, at, bucket)?;
    }
    Ok(())
}

// Builds a generation of the exponent, at most 24, that follows the one at `head`.
pub(crate) fn build_next(
    round: &Round,
    pass: &mut Pass,
    head: u64,
    exponent: u32,
) -> Result<Block, Full>
    requires pass { IsPassOf round.now pass.old }
    requires small { exponent ≤ max_exponent }
    ensures pass { IsSamePass pass.old pass.new }
    ensures answer { IfOk result (λ block.
        BuildsNext head exponent block.at pass.old.view pass.new.view) }
    ensures full { OnErr result (RefusesNext exponent pass.old.view pass.new.view) }
    ensures ledger { EndsAlone (drawing (generation_cost exponent)) (is_err result)
        pass.old.view pass.new.view }
{
    // All buckets of a fresh generation are nil, since the words drawn are 0.
    let mut block = round.draw(pass, FIRST_BUCKET + bucket_count(exponent))?;
    round.sound(pass);
    round.write(pass, &mut block, 0, exponent.into());
    round.sound(pass);
    round.write(pass, &mut block, 1, head);
    Ok(block)
}
