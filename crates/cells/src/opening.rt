// How a round begins.
ghost use Rattle.std.specs.Prelude.{◌≡◌, [], IfOk, OnOk};
ghost use Rattle.cells.specs.Begins.{MayBegin, HasFacts};
ghost use Rattle.cells.specs.Begins.{SpeaksForAll};
ghost use Rattle.cells.specs.Tokens.{fresh_passes};

use crate::plays::CutPass;
use crate::rule::{RoundSeat, RoundTable};
use crate::{Pass, Round, Setup};
use set_model::NoMemory;
use std::alloc::Global;
use std::snapshot::Snapshot;
use step_core::{Layout, Plan, Words};

impl Round {
    /// A round that begins with these words, and its passes by number. The words must be an opening
    /// for this layout and plan. Where memory is refused, they are dropped.
    pub fn from_words(
        alloc: Global,
        words: Words,
        layout: Layout,
        plan: Plan,
    ) -> Result<(Round, Vec<Pass>), NoMemory>
        requires opening { MayBegin words layout plan }
        ensures given { IfOk result (λ r. (r.0.layout ≡ layout) × (r.0.plan ≡ plan)) }
        ensures facts { IfOk result (λ r. HasFacts words layout plan r.0.facts) }
        ensures passes { IfOk result (λ r. r.1.items ≡ fresh_passes r.0) }
    {
        let mut passes = Vec::with_capacity(alloc, layout.seats as usize)?;
        let setup = Setup {
            seats: u64::from(layout.seats),
            words: Snapshot::of(&words),
        };
        let (table, seat) = RoundTable::of_words(alloc, words.as_slice(), &setup)?;
        // The table has its copy.
        drop(words);
        let round = Round {
            table,
            layout,
            plan,
        };
        cut_passes(&round, seat, &mut passes)?;
        Ok((round, passes))
    }
}

// A pass of its own for each number. The first table seat is left with none, and goes.
fn cut_passes(round: &Round, mut seat: RoundSeat, passes: &mut Vec<Pass>) -> Result<(), NoMemory>
    requires seat { SpeaksForAll round.now seat.table_id seat.me }
    requires empty { passes.old.items ≡ [] }
    ensures { OnOk result (passes.new.items ≡ fresh_passes round.now) }
{
    for number in 0..round.layout.seats {
        let cut = round.table.shared.split_seat::<CutPass>(&mut seat);
        passes.push(Pass {
            seat: cut,
            number,
            spent: None,
            calls: 0,
        })?;
    }
    Ok(())
}
