// Inserts and removes: a call is tried until it is answered, a bounded number of times.
ghost use Rattle.std.specs.Prelude.{◌≡◌, ◌≢◌, ◌-◌, ◌<◌, None};
ghost use Rattle.cells.specs.Tokens.{HasNewCall, IsPassOf, IsSamePass};
ghost use Rattle.hash_set.specs.Alone.{EndsCallAlone};
ghost use Rattle.hash_set.specs.Calls.{BeginsCall, EndsCall};
ghost use Rattle.set_model.specs.declared.call.Call.TheVariants.{Contains, Insert, Remove};
ghost use Rattle.step_core.specs.Limits.{max_calls};

use cells::{Pass, Round};
use fset::{Outcome, Turn, turn};
use set_model::Call;

/// Puts the key into the set. Done tells whether it was absent. The pass must have begun fewer than
/// `MAX_CALLS` calls and have no operation in flight, and the plan must have no announced turns.
///
/// It is Busy only where as many turns as the plan's `fast` were lost to other passes, which never
/// befalls the only pass of a round; and Full only where the pass was spent, or a draw of this call
/// passed the end of the arena. After either the call has no entry in the history and will have
/// none, and the pass can make further calls. For the only pass of a round, its ledger says which of
/// these it is, what is drawn, and what the width is.
pub fn insert(round: &Round, pass: &mut Pass, key: u64) -> Outcome
    requires pass { IsPassOf round.now pass.old }
    requires few { pass.old.calls < max_calls }
    requires idle { pass.old.view.flight ≡ None }
    requires plan { round.now.plan.turns ≡ 0 }
    ensures pass { BeginsCall pass.old pass.new }
    ensures idle { pass.new.view.flight ≡ None }
    ensures answer { EndsCall round.now.plan.fast pass.old.calls Insert key result
        pass.old.view pass.new.view }
    ensures ledger { pass.old.view.facts.seats ≡ 1
        → EndsCallAlone Insert key result pass.old.view pass.new.view }
{
    round.begin_call(pass);
    change(round, pass, Call::Insert, key)
}

/// Takes the key out of the set. Done tells whether it was present. What it asks, and when it is Busy
/// or Full, is as for `insert`.
pub fn remove(round: &Round, pass: &mut Pass, key: u64) -> Outcome
    requires pass { IsPassOf round.now pass.old }
    requires few { pass.old.calls < max_calls }
    requires idle { pass.old.view.flight ≡ None }
    requires plan { round.now.plan.turns ≡ 0 }
    ensures pass { BeginsCall pass.old pass.new }
    ensures idle { pass.new.view.flight ≡ None }
    ensures answer { EndsCall round.now.plan.fast pass.old.calls Remove key result
        pass.old.view pass.new.view }
    ensures ledger { pass.old.view.facts.seats ≡ 1
        → EndsCallAlone Remove key result pass.old.view pass.new.view }
{
    round.begin_call(pass);
    change(round, pass, Call::Remove, key)
}

// Tries the call that the pass has begun, at most as often as the plan says.
fn change(round: &Round, pass: &mut Pass, call: Call, key: u64) -> Outcome
    requires pass { IsPassOf round.now pass.old }
    requires call { (call ≢ Contains) × HasNewCall pass.old }
    requires idle { pass.old.view.flight ≡ None }
    requires plan { round.now.plan.turns ≡ 0 }
    ensures pass { IsSamePass pass.old pass.new }
    ensures idle { pass.new.view.flight ≡ None }
    ensures answer { EndsCall round.now.plan.fast (pass.old.calls - 1) call key result
        pass.old.view pass.new.view }
    ensures ledger { pass.old.view.facts.seats ≡ 1
        → EndsCallAlone call key result pass.old.view pass.new.view }
{
    round.sound(pass);
    for losses in 0..round.plan().fast {
        match turn(round, pass, call, key) {
            Turn::Done(answered) => return Outcome::Done(answered),
            Turn::Full => return Outcome::Full,
            // Another pass won the exchange, and the call has no entry: it may be tried again.
            Turn::Lost => {}
        }
    }
    Outcome::Busy
}
