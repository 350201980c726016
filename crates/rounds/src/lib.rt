//! The ends of a round: it is started with keys, and ends with keys and its history.
//!
//! A *round* has a set of `u64` keys in an arena of words that its passes draw from and never give
//! back. So a set that outlives an arena goes from round to round: `start_round` starts one with the
//! set's keys, `halt_round` stops it once all passes are back, and `end_round` gives its *closing*:
//! the keys of the set, the exponent of its head generation, the number of words drawn (NEXT), the
//! whole history, and of each pass an *account*, how many calls it began, where it was spent, and,
//! for contracts alone, how many words it drew, exchanges it won and turns it lost.
//!
//! The promise is `Closes` of `specs/Closings.antt`: the keys are the set that begins with the
//! round's first keys and takes the calls of its history, in which each answered call that changed
//! the set stands once. Where memory is refused, what was handed in comes back. The smallest use is
//! the test `a_round_ends_with_what_was_inserted`.
#![tactic(auto)]

mod account;
mod closing;
mod ending;
mod fault;
mod halted;
mod starting;

use account::Account;
pub use cells::{Front, Pass, Plan, Round};
pub use closing::Closing;
pub use ending::end_round;
pub use fault::OpenFault;
pub use halted::{Halted, halt_round};
pub use starting::start_round;

#[cfg(test)]
mod tests;
