// The rounds of a run so far.
ghost use Rattle.std.specs.Prelude.{◌≡◌, [], ◌∷◌, ◌++◌, length, OnErr, OnOk};
ghost use Rattle.dedup.specs.Rounds.{round_of, rounds_of};

use crate::Ended;
use rounds::Closing;
use set_model::{Entry, NoMemory};
use std::alloc::Global;
use std::marker::Model;

/// The rounds of a run so far, in order.
#[derive(Drop)]
pub(crate) struct SoFar {
    /// How each ended.
    pub(crate) closings: Vec<Closing>,
    /// The calls that were settled behind each.
    pub(crate) settled: Vec<Vec<Entry>>,
    /// The numbers of the records whose inserts each of its workers began.
    pub(crate) made: Vec<Vec<Vec<u32>>>,
}

impl Model for SoFar {
    ghost use Rattle.std.specs.Prelude.{List};
    ghost use Rattle.chain.specs.Chain.{RoundEnd};

    ghost Value = { List RoundEnd };

    ghost use Rattle.dedup.specs.Modeled.{rounds_value, HaveOneEach};

    ghost view = { rounds_value };

    ghost invariant = { HaveOneEach };
}

impl SoFar {
    /// No round.
    pub(crate) fn new(alloc: Global) -> Self
        ensures { result ≡ [] }
    {
        SoFar {
            closings: Vec::new(alloc),
            settled: Vec::new(alloc),
            made: Vec::new(alloc),
        }
    }

    /// Puts one more round behind the others. Where memory is refused they stay.
    pub(crate) fn push(
        &mut self,
        closing: Closing,
        settled: Vec<Entry>,
        made: Vec<Vec<u32>>,
    ) -> Result<(), NoMemory>
        ensures round { OnOk result
            (self.new ≡ self.old ++ round_of closing settled made ∷ []) }
        ensures refused { OnErr result (self.new ≡ self.old) }
    {
        // Room for all three first, so that none can be refused behind another.
        self.closings.reserve(1)?;
        self.settled.reserve(1)?;
        self.made.reserve(1)?;
        self.closings.push(closing)?;
        self.settled.push(settled)?;
        self.made.push(made)?;
        Ok(())
    }

    /// The end of a run with this status, after these rounds.
    pub(crate) fn ended(self, status: u8) -> Ended
        ensures status { result.status ≡ status }
        ensures rounds { rounds_of result.closings.items result.settled.items result.made.items
            ≡ self }
        ensures settled { length result.settled.items ≡ length result.closings.items }
        ensures made { length result.made.items ≡ length result.closings.items }
    {
        let SoFar {
            closings,
            settled,
            made,
        } = self;
        Ended {
            status,
            closings,
            settled,
            made,
        }
    }
}
