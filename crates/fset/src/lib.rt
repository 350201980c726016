//! The rows of a round: how a pass reads them, finds a key in them, builds them, and tries to replace
//! one.
//!
//! A *row* has the keys of one bucket, rising, and may name an *operation*, an insert or a remove
//! that its pass announced. `Seen` is a row as a pass read it. Its *content* is the keys, with the
//! operation applied where that is decided: `seen_content` of `specs/Content.antt`. So far only rows
//! without an operation are looked into. A bucket of the head may be *nil*: its keys stand in the
//! generation before, in one bucket or two, its *sources*. `ensure` fills it from these, once it has
//! *frozen* them. A *turn* is one try of an insert or a remove; a frozen bucket of its head loses it.
//! A builder writes a new row in a block in hand: `build_changed` one with a key more or less,
//! `build_split` one of the keys that are of a bucket's class, `build_joined` one of the keys of two rows.
//!
//! The promise is that of `turn`: a call that it answers with a change has exactly one entry, past all
//! that its pass had seen; one without a change has none, and the answer of the set after what the
//! pass has then seen (`EndsTurn` of `specs/Turns.antt`). `seek` finds the row of a key in a turn and
//! `look_up` without one, and `find` answers whether the content has it, whatever other passes do
//! meanwhile, since a published row never changes. What a call learned, drew and lost is exact, and
//! adds up (`specs/Frames.antt`). The smallest use is the test `a_turn_changes_the_set_once`.
#![tactic(auto)]

mod content;
mod copying;
mod ensuring;
mod joining;
mod looking;
mod outcomes;
mod rows;
mod seeking;
mod seen;
mod splitting;
mod taking;
mod turns;

pub use content::find;
pub use ensuring::ensure;
pub use joining::build_joined;
pub use looking::look_up;
pub use outcomes::{Answered, Outcome, Seek, Turn};
pub use rows::build_changed;
pub use seeking::{Sought, seek};
pub use seen::{Seen, read_row};
pub use splitting::build_split;
pub use turns::turn;

#[cfg(test)]
mod tests;
