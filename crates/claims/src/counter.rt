ghost use Rattle.std.specs.Prelude.{◌≡◌, ℕ, ◌*◌, ◌<◌, ◌≤◌, min, All, Any, IfOk, IfSome, IfNone, IsSome, ◌≢◌, OnOk, [], replicate};
ghost use Rattle.std.specs.List.{range_with_len};
ghost use Rattle.std.specs.List.Sorted.{IsPermutation};
ghost use Rattle.claims.specs.declared.rule.TheConstants.{MAX_LEN, MAX_CHUNK, MAX_SEATS};
ghost use Rattle.claims.specs.Tokens.{holders_in, places_in, draws_of, IsSeatOf, AreAllSeats, IsNext, AnswersNone, fresh_seat};
ghost use Rattle.claims.specs.Gathering.{HasAllParts, HasGathered};

use crate::rule::{CounterSeat, CounterTable};
use crate::{Claim, ClaimSeat, NoMemory, Setup, plays};
use std::alloc::Global;
use std::marker::Model;

// The counter is the table's only word.
const COUNTER: usize = 0;

/// A counter that gives each place below a length to one worker. Several threads share it.
#[derive(Drop)]
pub struct Claims {
    table: CounterTable,
    setup: Setup,
}

impl Model for Claims {
    ghost use Rattle.claims.specs.Tokens.{ClaimsValue};

    ghost Value = { ClaimsValue };

    ghost use Rattle.claims.specs.Modeled.{claims_value, IsCounter};

    ghost view = { claims_value };

    ghost invariant = { IsCounter };
}

impl Claims {
    /// A counter at place 0, and its seats, which have no claim yet. A claim has `chunk` places, or
    /// those that are left of the `len` places.
    pub fn new(
        alloc: Global,
        len: u64,
        chunk: u64,
        seats: u32,
    ) -> Result<(Claims, Vec<ClaimSeat>), NoMemory>
        requires len { len ≤ MAX_LEN }
        requires chunk { (1 ≤ chunk) × (chunk ≤ MAX_CHUNK) }
        requires seats { (1 ≤ seats) × (seats ≤ MAX_SEATS) }
        ensures setup { IfOk result
            (λ made. made.0.setup ≡ record { len = len; chunk = chunk; seats = seats }) }
        ensures seats { IfOk result (λ made. made.1.items ≡ replicate seats (fresh_seat made.0)) }
    {
        let mut dealt = Vec::with_capacity(alloc, seats as usize)?;
        let setup = Setup {
            len,
            chunk,
            seats: u64::from(seats),
        };
        let (table, seat) = CounterTable::of_words(alloc, &[0], &setup)?;
        let claims = Claims { table, setup };
        claims.deal(seat, &mut dealt)?;
        Ok((claims, dealt))
    }

    // A seat for each part. The first seat of the table is left with none, and goes.
    fn deal(&self, mut seat: CounterSeat, dealt: &mut Vec<ClaimSeat>) -> Result<(), NoMemory>
        requires seat { HasAllParts self.now seat.table_id seat.me }
        requires empty { dealt.old.items ≡ [] }
        ensures { OnOk result
            (dealt.new.items ≡ replicate self.now.setup.seats (fresh_seat self.now)) }
    {
        for _ in 0..self.setup.seats {
            let cut = self.table.shared.split_seat::<plays::CutSeat>(&mut seat);
            dealt.push(ClaimSeat {
                seat: cut,
                spent: None,
            })?;
        }
        Ok(())
    }

    /// The next claim, by one draw. It is None where this seat was answered None before, and then
    /// without a draw, or where the draw finds a place at or past the length. Other threads may
    /// take meanwhile.
    pub fn take(&self, seat: &mut ClaimSeat) -> Option<Claim>
        requires seat { IsSeatOf self.now seat.old }
        ensures seat { IsSeatOf self.now seat.new }
        ensures claim { IfSome result (λ claim. IsNext seat.old claim seat.new) }
        ensures none { IfNone result (AnswersNone seat.old seat.new) }
    {
        if seat.spent.is_some() {
            return None;
        }
        let Setup { len, chunk, .. } = self.setup;
        let shared = &self.table.shared;
        let place = shared.fetch_add::<plays::Draw>(&mut seat.seat, COUNTER, chunk);
        if place < len {
            Some(Claim {
                from: place,
                to: (place + chunk).min(len),
            })
        } else {
            seat.spent = Some(place);
            None
        }
    }

    /// The place that the counter reached, at most the length. Each place below it is in one claim
    /// of the seats, and no other place is in any. Where a seat was answered None, that is the
    /// length. The seats must be all of this counter.
    pub fn finish(self, seats: Vec<ClaimSeat>) -> u64
        requires seats { AreAllSeats self seats.items }
        ensures answer { result ≡ min (self.setup.chunk * draws_of seats.items) self.setup.len }
        ensures claimed { (place : ℕ) → place < result → holders_in place seats.items ≡ 1 }
        ensures free { (place : ℕ) → result ≤ place → holders_in place seats.items ≡ 0 }
        ensures places { IsPermutation (range_with_len 0 result) (places_in seats.items) }
        ensures covered { Any (λ seat. IsSome seat.spent) seats.items → result ≡ self.setup.len }
    {
        let Claims { table, setup } = self;
        let seat = gathered(&table, seats);
        let closed = table.close_with(seat);
        let word = closed.word(COUNTER);
        closed.free();
        word.min(setup.len)
    }
}

// One seat that knows what all of the seats know.
fn gathered(table: &CounterTable, mut seats: Vec<ClaimSeat>) -> CounterSeat
    requires word { 0 < table.now.shared.table_id.words }
    requires some { seats.items ≢ [] }
    requires ours { All (λ seat. seat.table ≡ table.now.shared.table_id) seats.items }
    ensures table { result.table_id ≡ table.now.shared.table_id }
    ensures seat { HasGathered seats.items result.me }
{
    let Some(last) = seats.pop() else {
        // There is a seat, by the second `requires`.
        unreachable!()
    };
    let mut seat = last.seat;
    while let Some(next) = seats.pop() {
        table
            .shared
            .join_seat::<plays::GatherSeat>(&mut seat, next.seat);
    }
    seat
}
