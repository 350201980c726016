// The rule of the table that the counter's word lies in.
use crate::Claim;
use atomic_table::{Seat, Table, TableRule};
use std::alloc::Global;
use std::collections::LinkedList;

/// The most places.
pub const MAX_LEN: u64 = 1 << 32;

/// The most places of a claim.
pub const MAX_CHUNK: u64 = 1 << 20;

/// The most seats.
pub const MAX_SEATS: u32 = 64;

/// What is divided, and how. It never changes.
#[derive(Clone, Copy)]
pub struct Setup {
    /// The number of places.
    pub len: u64,
    /// The places of a claim that isn't cut.
    pub chunk: u64,
    /// The number of seats.
    pub seats: u64,
}

/// What a seat at the table knows. No value of it is made.
pub struct SeatView {
    /// What is divided.
    pub setup: Setup,
    /// The number of claim seats that it speaks for.
    pub parts: u64,
    /// Their claims.
    pub claims: LinkedList<Claim>,
    /// The places at or past the length that their other draws found.
    pub misses: LinkedList<u64>,
}

/// The claims of all seats are the places below the counter, each once.
pub struct DivideRule;

impl TableRule<u64, SeatView, Setup> for DivideRule {
    ghost use Rattle.claims.specs.Divided.{Divides};
    ghost use Rattle.claims.specs.Views.{parts_view};

    ghost holds = { Divides };

    ghost first = { λ setup. parts_view setup setup.seats };
}

pub(crate) type CounterTable = Table<u64, SeatView, Setup, DivideRule, Global>;

pub(crate) type CounterSeat = Seat<u64, SeatView>;
