// When a worker grows the table of its round.
ghost use Rattle.std.specs.Prelude.{◌≡◌};
ghost use Rattle.cells.specs.Lone.{ledger_of};
ghost use Rattle.cells.specs.Tokens.{IsPassOf};
ghost use Rattle.dedup.specs.Growing.{OnlyResizes, may_grow as may};
ghost use Rattle.dedup.specs.LoneRun.{after_insert, grown_where};

use fset::Answered;
use hash_set::{exponent, grow};
use rounds::{Pass, Round};
use step_core::{FIRST_BUCKET, MAX_EXPONENT, bucket_count};

/// A bucket with more keys than this is wide.
const WIDE: u32 = 8;

/// A table may have one in so many of the room's words.
const TABLE_PART: u64 = 32;

/// Grows the table after an insert that changed the set and left its bucket wide, unless the next table
/// would be too large for the room.
pub(crate) fn grow_after(round: &Round, pass: &mut Pass, answered: Answered)
    requires pass { IsPassOf round.now pass.old }
    ensures resizes { OnlyResizes pass.old pass.new }
    ensures ledger { pass.old.view.facts.seats ≡ 1 → ledger_of pass.new.view
        ≡ after_insert round.now.plan.room answered.changed answered.width (ledger_of pass.old.view) }
{
    if answered.changed && answered.width > WIDE {
        grow_within(round, pass);
    }
}

// Grows the table, unless the next one would be too large for the room.
fn grow_within(round: &Round, pass: &mut Pass)
    requires pass { IsPassOf round.now pass.old }
    ensures resizes { OnlyResizes pass.old pass.new }
    ensures ledger { pass.old.view.facts.seats ≡ 1 → ledger_of pass.new.view
        ≡ grown_where (may (ledger_of pass.old.view).exponent round.now.plan.room)
        (ledger_of pass.old.view) }
{
    let exponent = exponent(round, pass);
    if may_grow(exponent, round.plan().room) {
        // However it ends, the worker goes on.
        let _ = grow(round, pass);
    }
}

// Whether a table with one bucket bit more than the exponent may stand in so much room.
fn may_grow(exponent: u32, room: u64) -> bool
    ensures { result ≡ may exponent room }
{
    exponent < MAX_EXPONENT && TABLE_PART * (FIRST_BUCKET + bucket_count(exponent + 1)) <= room
}
