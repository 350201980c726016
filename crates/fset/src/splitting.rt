// Building a row of a part of another's keys.
ghost use Rattle.std.specs.Prelude.{◌≡◌, ◌≤◌, IfOk, IfErr};
ghost use Rattle.cells.specs.Tokens.{IsPassOf, IsSamePass};
ghost use Rattle.fset.specs.Rows.{Builds, RefusesRow};
ghost use Rattle.fset.specs.Seen.{IsSeen};
ghost use Rattle.fset.specs.Splitting.{TakesFromClass, class_left, split_keys};
ghost use Rattle.step_core.specs.Limits.{max_exponent};

use crate::Seen;
use crate::copying::build_from;
use crate::taking::{KeySource, RowKeys};
use cells::{Block, Full, Pass, Round};
use step_core::bucket_of;

/// Builds a row of those keys of the content that are of the bucket's class in a generation of this
/// exponent, at most 24, word by word, in a block in hand. It is Full only where the pass was spent,
/// or is spent by a draw of the row's words.
pub fn build_split(
    round: &Round,
    pass: &mut Pass,
    seen: &Seen,
    exponent: u32,
    bucket: u64,
) -> Result<Block, Full>
    requires pass { IsPassOf round.now pass.old }
    requires knows { IsSeen pass.old.view seen.now }
    requires exponent { exponent ≤ max_exponent }
    ensures pass { IsSamePass pass.old pass.new }
    ensures answer { IfOk result (λ block.
        Builds (split_keys exponent bucket pass.old.view seen.now) block
        pass.old.view pass.new.view) }
    ensures full { IfErr result (λ _.
        RefusesRow (split_keys exponent bucket pass.old.view seen.now)
        pass.old.view pass.new.view) }
{
    // No operation is published yet, so the content is the keys.
    round.sound(pass);
    let row = RowKeys::of(seen);
    let part = ClassKeys {
        row,
        exponent,
        bucket,
    };
    build_from(round, pass, part)
}

// The keys of a row that are of a bucket's class and weren't taken yet.
#[derive(Clone, Copy)]
pub(crate) struct ClassKeys {
    // The row's keys, of any class.
    pub(crate) row: RowKeys,
    // The exponent of the bucket's generation.
    pub(crate) exponent: u32,
    // The bucket.
    pub(crate) bucket: u64,
}

impl KeySource for ClassKeys {
    ghost are_known = { TakesFromClass };

    ghost left = { class_left };

    fn take_first(&mut self, round: &Round, pass: &mut Pass) -> Option<u64> {
        while let Some(key) = self.row.take_first(round, pass) {
            if bucket_of(key, self.exponent) == self.bucket {
                return Some(key);
            }
        }
        None
    }
}
