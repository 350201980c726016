ghost use Rattle.std.specs.Prelude.{◌≡◌, ◌≤◌, [], IfOk, length};
ghost use Rattle.claims.specs.Tokens.{fresh_seat, IsSeatOf};

use super::*;
use std::alloc::Global;
use std::test::Fail;

mod threads;
mod worker;

// A counter with one seat.
fn begin_alone(alloc: Global, len: u64, chunk: u64) -> Result<(Claims, ClaimSeat), NoMemory>
    requires len { len ≤ MAX_LEN }
    requires chunk { (1 ≤ chunk) × (chunk ≤ MAX_CHUNK) }
    ensures setup { IfOk result
        (λ made. made.0.setup ≡ record { len = len; chunk = chunk; seats = 1 }) }
    ensures seat { IfOk result (λ made. made.1 ≡ fresh_seat made.0) }
{
    let (claims, mut seats) = Claims::new(alloc, len, chunk, 1)?;
    match seats.pop() {
        Some(seat) => Ok((claims, seat)),
        None => unreachable!(),
    }
}

// Where such a counter ends.
fn end_alone(alloc: Global, claims: Claims, seat: ClaimSeat) -> Result<u64, NoMemory>
    requires seats { claims.setup.seats ≡ 1 }
    requires seat { IsSeatOf claims seat }
    ensures { IfOk result (λ reached. reached ≤ claims.setup.len) }
{
    let mut seats = Vec::new(alloc);
    seats.push(seat)?;
    Ok(claims.finish(seats))
}

#[test]
fn five_places_in_chunks_of_two(rt: HostRuntime) -> Result<(), Fail> {
    let (claims, mut seat) = begin_alone(rt.alloc(), 5, 2)?;
    let wanted = [Some((0, 2)), Some((2, 4)), Some((4, 5)), None, None];
    for want in wanted {
        let given = claims.take(&mut seat).map(|claim| (claim.from, claim.to));
        assert_eq!(rt; given, want);
    }
    assert_eq!(rt; end_alone(rt.alloc(), claims, seat)?, 5);
    Ok(())
}

#[test]
fn no_places_give_no_claim(rt: HostRuntime) -> Result<(), Fail> {
    let (claims, mut seat) = begin_alone(rt.alloc(), 0, 1)?;
    assert_eq!(rt; claims.take(&mut seat), None);
    assert_eq!(rt; claims.take(&mut seat), None);
    assert_eq!(rt; end_alone(rt.alloc(), claims, seat)?, 0);
    Ok(())
}

#[test]
fn one_chunk_is_one_claim(rt: HostRuntime) -> Result<(), Fail> {
    for len in [1, 7, MAX_CHUNK] {
        let (claims, mut seat) = begin_alone(rt.alloc(), len, len)?;
        assert_eq!(rt; claims.take(&mut seat), Some(Claim { from: 0, to: len }));
        assert_eq!(rt; claims.take(&mut seat), None);
        assert_eq!(rt; end_alone(rt.alloc(), claims, seat)?, len);
    }
    Ok(())
}

#[test]
fn the_most_places_in_the_largest_chunks(rt: HostRuntime) -> Result<(), Fail> {
    let (claims, mut seat) = begin_alone(rt.alloc(), 4_294_967_296, 1_048_576)?;
    for part in 0..4096 {
        let want = Claim {
            from: part * 1_048_576,
            to: part * 1_048_576 + 1_048_576,
        };
        assert_eq!(rt; claims.take(&mut seat), Some(want));
    }
    assert_eq!(rt; claims.take(&mut seat), None);
    assert_eq!(rt; end_alone(rt.alloc(), claims, seat)?, 4_294_967_296);
    Ok(())
}

// A counter that is ended before its places are all claimed tells how far it came.
#[test]
fn a_counter_ends_where_its_last_claim_does(rt: HostRuntime) -> Result<(), Fail> {
    let (claims, mut seat) = begin_alone(rt.alloc(), 10, 3)?;
    assert_eq!(rt; claims.take(&mut seat), Some(Claim { from: 0, to: 3 }));
    assert_eq!(rt; claims.take(&mut seat), Some(Claim { from: 3, to: 6 }));
    assert_eq!(rt; end_alone(rt.alloc(), claims, seat)?, 6);
    Ok(())
}

fn is_shared<T: Send + Sync>(value: T) -> T
    ensures { result ≡ value }
{
    value
}

fn is_sent<T: Send>(value: T) -> T
    ensures { result ≡ value }
{
    value
}

// That these calls are accepted shows it: the bounds are theirs.
#[test]
fn a_counter_is_shared_and_its_seats_are_sent(rt: HostRuntime) -> Result<(), Fail> {
    let (claims, seat) = begin_alone(rt.alloc(), 1, 1)?;
    let claims = is_shared(claims);
    let mut seat = is_sent(seat);
    assert_eq!(rt; claims.take(&mut seat), Some(Claim { from: 0, to: 1 }));
    assert_eq!(rt; end_alone(rt.alloc(), claims, seat)?, 1);
    Ok(())
}

#[test]
fn refused_memory_has_a_text(rt: HostRuntime) -> Result<(), Fail> {
    let text = format!(in rt.alloc(); "{NoMemory}")?;
    assert_eq!(rt; text.as_str(), "out of memory");
    Ok(())
}
