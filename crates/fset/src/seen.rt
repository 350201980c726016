// Reading the first words of a row.
ghost use Rattle.cells.specs.Tokens.{IsPassOf, IsSamePass};
ghost use Rattle.fset.specs.Seen.{KnowsRowAt, ReadsRow};

use cells::{Pass, Round};
use step_core::op_place;

/// A row as a pass read it.
#[derive(Clone, Copy, Debug, PartialEq, Eq)]
pub struct Seen {
    /// The address of the row.
    pub at: u64,
    /// The number of its keys.
    pub count: u64,
    /// The address of its operation, or 0.
    pub op: u64,
    /// The result of its operation, or 0.
    pub result: u64,
}

/// Reads the row at the address, which the pass must know, by two loads. Of a row with an operation
/// the pass then knows that too, but its result isn't loaded: it is given as 0.
pub fn read_row(round: &Round, pass: &mut Pass, at: u64) -> Seen
    requires pass { IsPassOf round.now pass.old }
    requires knows { KnowsRowAt pass.old.view at }
    ensures pass { IsSamePass pass.old pass.new }
    ensures answer { ReadsRow at pass.old.view result pass.new.view }
{
    round.sound(pass);
    let count = round.load_sealed(pass, at);
    let op = round.load_sealed(pass, op_place(at));
    round.sound(pass);
    Seen {
        at,
        count,
        op,
        result: 0,
    }
}
