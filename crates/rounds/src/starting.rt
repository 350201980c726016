// How a round is started.
ghost use Rattle.std.specs.Prelude.{◌≤◌, length, IfOk, IfErr};
ghost use Rattle.std.specs.List.Sorted.{IsStrictlyIncreasing};
ghost use Rattle.step_core.specs.Limits.{max_keys};
ghost use Rattle.step_core.specs.Plans.{IsPlan};
ghost use Rattle.rounds.specs.Starts.{RefusesStart, StartsRound, round_words};

use crate::{OpenFault, Pass, Plan, Round};
use std::alloc::Global;
use step_core::{Layout, MAX_WORDS, opening, opening_words};

/// A round whose set is these keys, and its passes by number, which have seen no entry of its history.
/// The keys rise, and are at most `MAX_KEYS` of `step_core`, 2^24. It is `TooWide` exactly where the
/// opening words and the plan's room pass 2^28, whether there is memory or not. For a moment the
/// round's words stand twice in memory.
pub fn start_round(alloc: Global, keys: &[u64], plan: Plan) -> Result<(Round, Vec<Pass>), OpenFault>
    requires rising { IsStrictlyIncreasing keys.now }
    requires few { length keys.now ≤ max_keys }
    requires plan { IsPlan plan }
    ensures answer { IfOk result (λ r. StartsRound keys.now plan r.0 r.1.items) }
    ensures refused { IfErr result (RefusesStart (round_words plan keys.now)) }
{
    let cap = opening_words(plan.seats, keys) + plan.room;
    if cap > MAX_WORDS {
        return Err(OpenFault::TooWide { words: cap });
    }
    let layout = Layout {
        seats: plan.seats,
        cap,
    };
    let words = opening(alloc, &layout, keys)?;
    Ok(Round::from_words(alloc, words, layout, plan)?)
}
