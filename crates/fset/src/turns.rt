// One try of an insert or a remove.
ghost use Rattle.std.specs.Prelude.{◌≡◌, ◌≢◌, ◌-◌, None};
ghost use Rattle.cells.specs.Tokens.{HasNewCall, IsPassOf, IsSamePass};
ghost use Rattle.fset.specs.Alone.{EndsTurnAlone};
ghost use Rattle.fset.specs.Turns.{AreOneTurn, EndsTurn};
ghost use Rattle.set_model.specs.declared.call.Call.TheVariants.{Contains};

use crate::content::place_among;
use crate::rows::build_at;
use crate::{Answered, Seek, Turn, seek};
use cells::{Pass, Round};
use set_model::Call;
use step_core::FIRST_KEY;

/// Tries an insert or a remove once. The pass must have begun a call that has no entry, and have no
/// operation in flight.
///
/// Where the key's bucket is nil it is filled first, as `ensure` does. Where the call wouldn't change
/// the set that the pass has seen when it loads the bucket, it is answered so. Else it takes effect by
/// one exchange of the bucket, and has an entry in the history then. It is Lost only to another pass:
/// where that exchange was lost, or the bucket was frozen when it was loaded, so that none was made;
/// and Full only where the pass was spent, or a draw for its row or for one to fill the bucket with
/// passed the end. The call then has no entry. Where its row was exchanged, or it is Lost, no turn is
/// open. For the only pass of a round, its ledger says how the turn ends, and which draws it makes.
///
/// After Liu, Zhang and Spear, Dynamic-sized nonblocking hash tables (PODC 2014).
pub fn turn(round: &Round, pass: &mut Pass, call: Call, key: u64) -> Turn
    requires pass { IsPassOf round.now pass.old }
    requires call { (call ≢ Contains) × HasNewCall pass.old }
    requires idle { pass.old.view.flight ≡ None }
    ensures pass { IsSamePass pass.old pass.new }
    ensures answer { EndsTurn (pass.old.calls - 1) call key result pass.old.view pass.new.view }
    ensures ledger { pass.old.view.facts.seats ≡ 1
        → EndsTurnAlone call key result pass.old.view pass.new.view }
    ensures steps { AreOneTurn pass.old.view.made pass.new.view.made }
{
    let sought = seek(round, pass, key);
    round.sound(pass);
    let sought = match sought {
        Seek::Found(sought) => sought,
        Seek::Frozen => return Turn::Lost,
        Seek::Full => return Turn::Full,
    };
    let place = place_among(round, pass, &sought.row, key);
    round.sound(pass);
    if !call.answer(place.taken) {
        return Turn::Done(Answered {
            changed: false,
            width: sought.row.count as u32,
        });
    }
    let Ok(block) = build_at(round, pass, &sought.row, call, key, place.before) else {
        return Turn::Full;
    };
    round.sound(pass);
    let width = (block.len() - FIRST_KEY) as u32;
    // The call takes effect here, where the bucket still has the word that was loaded.
    let exchanged = round.swap_row(pass, sought.place, sought.word, block);
    round.sound(pass);
    match exchanged {
        Ok(()) => Turn::Done(Answered {
            changed: true,
            width,
        }),
        // Another pass exchanged the bucket's row. The block stays in hand, and isn't used again.
        Err(_) => Turn::Lost,
    }
}
