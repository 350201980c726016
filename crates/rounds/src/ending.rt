// How a round ends.
ghost use Rattle.std.specs.Prelude.{◌≡◌, IfOk, IfErr};
ghost use Rattle.rounds.specs.Closings.{Closes};

use crate::{Closing, Halted};
use set_model::NoMemory;
use std::alloc::Global;
use step_core::{NEXT, exponent_of, live_keys};

/// The closing of a round that was halted: its keys, its exponent and its last NEXT are read off its
/// words. Where memory is refused, the halted round comes back as
/// it was.
pub fn end_round(alloc: Global, halted: Halted) -> Result<Closing, (NoMemory, Halted)>
    ensures answer { IfOk result (Closes halted) }
    ensures refused { IfErr result (λ back. back.1 ≡ halted) }
{
    let Ok(keys) = live_keys(alloc, &halted.words) else {
        return Err((NoMemory, halted));
    };
    let exponent = exponent_of(&halted.words);
    let next = halted.words.word(NEXT);
    let Halted {
        front,
        accounts,
        ..
    } = halted;
    Ok(Closing {
        keys,
        exponent,
        next,
        front,
        accounts,
    })
}
