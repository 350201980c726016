// How a round ends.
ghost use Rattle.std.specs.Prelude.{◌≡◌, ◌≢◌, ◌<◌, ◌≤◌, [], map, All, IfOk, IfErr, vec_capacity};
ghost use Rattle.std.specs.Mem.Slots.{IsFull, slots_items, slots_len};
ghost use Rattle.cells.specs.Ends.{AreAllPasses, EndsRound};
ghost use Rattle.cells.specs.Seats.{gathered_seat};
ghost use Rattle.cells.specs.Tokens.{HasBegunCalls};

use crate::plays::{CutFront, GatherPass};
use crate::rule::{RoundSeat, RoundTable};
use crate::{Front, Pass, Round};
use atomic_table::Closed;
use set_model::NoMemory;
use std::alloc::Global;
use step_core::Words;

impl Round {
    /// The words of the round as it ends, and its whole history. The passes must be all of the
    /// round, each once. Where memory is refused, round and passes come back as they were.
    pub fn into_words(
        self,
        alloc: Global,
        passes: Vec<Pass>,
    ) -> Result<(Words, Front), (NoMemory, Round, Vec<Pass>)>
        requires passes { AreAllPasses self passes.items }
        ensures answer { IfOk result (λ end. EndsRound self.facts passes.items end.0 end.1) }
        ensures refused { IfErr result (λ back. (back.1 ≡ self) × (back.2.items ≡ passes.items)) }
    {
        let Ok(space) = Vec::with_capacity(alloc, self.layout.cap as usize) else {
            return Err((NoMemory, self, passes));
        };
        let Round { table, .. } = self;
        let mut seat = gathered(&table, passes);
        let front = Front {
            badge: table.shared.split_seat::<CutFront>(&mut seat).into_badge(),
        };
        let count = table.word_count();
        let closed = table.close_with(seat);
        let words = copied(&closed, count, space);
        closed.free();
        Ok((Words::from_vec(words), front))
    }
}

// One table seat for all of the passes, of which there is one at least.
fn gathered(table: &RoundTable, mut passes: Vec<Pass>) -> RoundSeat
    requires word { 0 < table.now.shared.table_id.words }
    requires some { passes.items ≢ [] }
    requires ours { All (λ pass. pass.table ≡ table.now.shared.table_id) passes.items }
    ensures table { result.table_id ≡ table.now.shared.table_id }
    ensures seat { result.me ≡ (gathered_seat (map (λ pass. pass.view) passes.items), []) }
    ensures serials { All HasBegunCalls passes.items }
{
    let Some(last) = passes.pop() else {
        unreachable!()
    };
    let mut seat = last.seat;
    while let Some(pass) = passes.pop() {
        table.shared.join_seat::<GatherPass>(&mut seat, pass.seat);
    }
    seat
}

// All words, put into the space that is there for them.
fn copied(closed: &Closed<u64, Global>, count: usize, mut space: Vec<u64>) -> Vec<u64>
    requires count { count ≡ slots_len closed.now.words }
    requires full { IsFull closed.now.words }
    requires empty { space.items ≡ [] }
    requires room { count ≤ vec_capacity space }
    ensures { result.items ≡ slots_items closed.now.words }
{
    for at in 0..count {
        let Ok(()) = space.push(closed.word(at)) else {
            unreachable!()
        };
    }
    space
}
