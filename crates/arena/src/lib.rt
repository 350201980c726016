//! The memory layer of a round: what it means that a row of words shows a state, and that each move
//! keeps it so.
//!
//! An *arena* is one row of words. The first are *fixed*: the head, the place that the next draw
//! begins at, the next ticket, and an announce word for each holder. The words behind them are
//! drawn in blocks. A *holder* is who draws, by number. A drawn block is *in hand* until its holder
//! *publishes* it. A published block is *sealed* words, which stay for good, and behind them
//! *cells*, which are set one at a time.
//!
//! Each word has one owner (`specs/Owners.antt`): nobody, the arena, a published block or a
//! holder's hand. So blocks never share a word. That words show a state is `IsLaidOut`
//! (`specs/LaidOut.antt`), for any kind of block and of view. The promise is `specs/Laws.antt`: a
//! load, a draw, a write, a publishing and a word that is set keep it, and change nothing else. The
//! crate has no function: `proofs/` has a lemma for each law, which crates above cite. The smallest
//! use is `specs/Smallest.antt`, of which `proofs/laws/Smallest.antt` shows that the laws can be met.
#![tactic(auto)]

mod held;
mod layout;

pub use held::Held;
pub use layout::{ANNOUNCED, HEAD, NEXT, TICKET};
