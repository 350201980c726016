//! A round whose words several threads step on at once, and what each of them knows.
//!
//! A *round* is one row of words, as `step_core` lays them out, which changes in single atomic
//! steps. A *pass* is a caller's token: it makes the steps, and has a *view*, what it knows. The
//! *history* is the list of the calls that took effect, each with its answer, in that order.
//! It is stored nowhere: a pass's *front* is what it has seen of it, and a *note* hands a front on
//! to another pass. A *block* is in one pass's hands from the draw on.
//!
//! The promise is the table invariant, `HoldsRound` of `specs/Invariant.antt` (in words:
//! docs/INVARIANT.md). It holds between any two steps, whatever the schedule: each typed step keeps
//! it, and says what its pass then knows (`specs/Steps.antt`). `Round::into_words` gives the last
//! words, the whole history, and that both meet it with the views of all passes. The smallest use
//! is the test `a_won_exchange_is_an_insert`.
#![tactic(auto)]

mod block;
mod draws;
mod ending;
mod exchanges;
mod filling;
mod freezing;
mod front;
mod heads;
mod loads;
mod notes;
mod opening;
mod pass;
mod plays;
mod round;
mod rule;
mod writes;

pub use block::{Block, Full, LostBlock};
pub use front::Front;
pub use notes::Note;
pub use pass::Pass;
pub use round::Round;
use rule::{SeatView, Setup};
pub use step_core::Plan;

#[cfg(test)]
mod tests;
