// Looking a key's row up, without a turn.
ghost use Rattle.cells.specs.Marks.{IsHeadNow};
ghost use Rattle.cells.specs.Tokens.{IsPassOf, IsSamePass};
ghost use Rattle.fset.specs.Looking.{LooksUp, MeetsRow};
ghost use Rattle.fset.specs.Seeking.{KnowsGenerationAt};

use crate::seeking::load_bucket_of;
use crate::{Seen, read_row};
use cells::{Pass, Round};
use step_core::{predecessor_place, row_address};

/// Reads the row that says whether the key is in the set: that of its bucket in the head, or where
/// that isn't filled yet, in the generation before. It helps nobody and draws nothing; a bucket that
/// is frozen meanwhile does for it, since its row says what the set had at a time that the pass
/// hasn't seen past. Of the key the row says what the set after the pass's new front says, which
/// begins with its old one.
///
/// The reading of a set whose row was replaced since is that of a list by hindsight: P. O'Hearn, N.
/// Rinetzky, M. Vechev, E. Yahav and G. Yorsh, "Verifying Linearizability with Hindsight" (PODC 2010).
pub fn look_up(round: &Round, pass: &mut Pass, key: u64) -> Seen
    requires pass { IsPassOf round.now pass.old }
    ensures pass { IsSamePass pass.old pass.new }
    ensures answer { LooksUp key pass.old.view result pass.new.view }
{
    let head = round.load_head(pass);
    round.sound(pass);
    let at = meet_row(round, pass, head, key);
    round.sound(pass);
    let seen = read_row(round, pass, at);
    round.sound(pass);
    seen
}

// The address of the row of the key's bucket in the head that the pass loaded from the front that it
// has or, where that isn't filled yet, in the generation before.
fn meet_row(round: &Round, pass: &mut Pass, head: u64, key: u64) -> u64
    requires pass { IsPassOf round.now pass.old }
    requires knows { KnowsGenerationAt pass.old.view head }
    requires now { IsHeadNow pass.old.view head }
    ensures pass { IsSamePass pass.old pass.new }
    ensures answer { MeetsRow head key pass.old.view result pass.new.view }
{
    round.sound(pass);
    let bucket = load_bucket_of(round, pass, head, key);
    round.sound(pass);
    if bucket.word != 0 {
        return row_address(bucket.word);
    }
    let predecessor = round.load_sealed(pass, predecessor_place(head));
    round.sound(pass);
    row_address(load_bucket_of(round, pass, predecessor, key).word)
}
