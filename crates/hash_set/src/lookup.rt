// Looking a key up.
ghost use Rattle.std.specs.Prelude.{◌≡◌, ◌<◌};
ghost use Rattle.cells.specs.Tokens.{IsPassOf};
ghost use Rattle.fset.specs.Standing.{AnswerStands};
ghost use Rattle.hash_set.specs.Alone.{LooksAlone};
ghost use Rattle.hash_set.specs.Calls.{BeginsCall, OnlyLooks};
ghost use Rattle.set_model.specs.declared.call.Call.TheVariants.{Contains};
ghost use Rattle.step_core.specs.Limits.{max_calls};

use cells::{Pass, Round};
use fset::{find, look_up};

/// Whether the key is in the set. It has no refusal, helps nobody and draws nothing, and makes one load
/// of the head and one of a bucket, or two, of which the second is one of the generation before.
///
/// The answer is that of the set after the pass's new front, which begins with its old one and with
/// what had taken effect when the head was loaded. The row that it reads may have been replaced by
/// then: the set had what the row has at some time since. Of the only pass of a round the ledger stays,
/// and its keys give the answer.
pub fn contains(round: &Round, pass: &mut Pass, key: u64) -> bool
    requires pass { IsPassOf round.now pass.old }
    requires few { pass.old.calls < max_calls }
    ensures pass { BeginsCall pass.old pass.new }
    ensures answer { AnswerStands pass.old.calls Contains key result pass.old.view pass.new.view }
    ensures looks { OnlyLooks key pass.old.view pass.new.view }
    ensures ledger { pass.old.view.facts.seats ≡ 1
        → LooksAlone key result pass.old.view pass.new.view }
{
    round.begin_call(pass);
    let row = look_up(round, pass, key);
    round.sound(pass);
    find(round, pass, &row, key)
}
