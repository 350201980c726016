//! The words of a round and the atomic steps on them.
//!
//! A *round* keeps a set of `u64` keys in one row of `u64` words. The first words are fixed: HEAD
//! has the address of the head generation, NEXT the first word never drawn. Behind them lie blocks.
//! A *generation* has 2^exponent *buckets*, each a word that names a *row* or is nil; a row has
//! keys, rising. A *draw* takes the words from NEXT on. What each word means is in docs/FORMAT.md.
//!
//! `step` makes one atomic step and leaves and gives exactly what `after_step` and `gives` of
//! `specs/Steps.antt` say, the table of docs/STEPS.md. `is_member` of `specs/Content.antt` says
//! which keys the words hold: `opening` makes words with given keys, and `live_keys` lists them.
//! The smallest uses are the tests `an_opening_with_five_keys_has_two_rows` and
//! `an_insert_is_a_draw_writes_and_a_swap`.
#![tactic(auto)]

mod bucket_order;
mod exponents;
mod format;
mod kinds;
mod layout;
mod openings;
mod published;
mod reading;
mod spots;
mod stepping;
mod views;
mod words;

pub use exponents::opening_words;
pub use format::{
    FIRST_ANNOUNCED, FIRST_BUCKET, FIRST_KEY, HEAD, MAX_CALLS, MAX_DRAW, MAX_EXPONENT, MAX_KEYS,
    MAX_SEATS, MAX_TURNS, MAX_WORDS, NEXT, OP_LEN, SPOT_FACTOR, TICKET, frozen_word, key_place,
    mutable_word, op_place, predecessor_place, row_address,
};
pub use kinds::Step;
pub use layout::{Layout, Plan};
pub use openings::opening;
pub use published::{GenerationBlock, OpBlock, Published, RowBlock};
pub use reading::{exponent_of, live_keys};
pub use spots::{bucket_count, bucket_of, spot};
pub use stepping::step;
pub use views::{
    AnnounceLoad, BlockTicket, BucketLoad, Event, FilledBucket, FixedCell, HeadLoad, Known, Mark,
    NilBucket, OpenTurn, PassView, RoundFacts, StepCounts, Trial,
};
pub use words::Words;

#[cfg(test)]
mod tests;
