// Keys of known rows, taken one by one from the least on.
ghost use Rattle.std.specs.Prelude.{◌≡◌, ℕ, ◌+◌, ◌<◌, ◌^◌, List, IfSome};
ghost use Rattle.cells.specs.Tokens.{IsPassOf, IsSamePass};
ghost use Rattle.fset.specs.Taking.{
  TakesFromRow,
  LoadsNothingNew,
  TakesKey,
  all_keys,
  behind_first,
  row_left,
};
ghost use Rattle.step_core.specs.declared.views.Known.{Known};

use crate::Seen;
use crate::content::key_at;
use cells::{Pass, Round};

// Keys of rows that a pass knows, which it takes from the least on. A copy has the keys that were
// left when it was made.
pub(crate) trait KeySource: Copy {
    // The rows are known.
    ghost are_known: { List Known → Self → Type 0 };

    // The keys that are left, rising.
    ghost left: { List Known → Self → List ℕ };

    // Takes the first key that is left, if there is one.
    fn take_first(&mut self, round: &Round, pass: &mut Pass) -> Option<u64>
        requires pass { IsPassOf round.now pass.old }
        requires knows { are_known pass.old.view.known self.old }
        ensures pass { IsSamePass pass.old pass.new }
        ensures knows { are_known pass.new.view.known self.new }
        ensures first { TakesKey (left pass.old.view.known self.old) result
            (left pass.new.view.known self.new) }
        ensures view { LoadsNothingNew pass.old.view pass.new.view };
}

// The keys of a row that weren't taken yet.
#[derive(Clone, Copy)]
pub(crate) struct RowKeys {
    // The address of the row.
    pub(crate) at: u64,
    // The number of its keys.
    pub(crate) count: u64,
    // How many of them were taken.
    pub(crate) taken: u64,
}

impl RowKeys {
    // All keys of the row.
    pub(crate) fn of(seen: &Seen) -> RowKeys
        ensures { result ≡ all_keys seen.now }
    {
        RowKeys {
            at: seen.at,
            count: seen.count,
            taken: 0,
        }
    }

    // The first key that is left, if there is one. It isn't taken.
    pub(crate) fn first(&self, round: &Round, pass: &mut Pass) -> Option<u64>
        requires pass { IsPassOf round.now pass.old }
        requires knows { TakesFromRow pass.old.view.known self.now }
        ensures pass { IsSamePass pass.old pass.new }
        ensures first { TakesKey (row_left pass.old.view.known self.now) result
            (row_left pass.old.view.known (behind_first self.now)) }
        ensures behind { IfSome result
            (λ _. TakesFromRow pass.old.view.known (behind_first self.now)) }
        ensures fits { IfSome result (λ _. self.now.taken + 1 < 2 ^ 64) }
        ensures view { LoadsNothingNew pass.old.view pass.new.view }
    {
        if self.taken >= self.count {
            return None;
        }
        Some(key_at(round, pass, self.at, self.taken))
    }
}

impl KeySource for RowKeys {
    ghost are_known = { TakesFromRow };

    ghost left = { row_left };

    fn take_first(&mut self, round: &Round, pass: &mut Pass) -> Option<u64> {
        let first = self.first(round, pass)?;
        self.taken += 1;
        Some(first)
    }
}
