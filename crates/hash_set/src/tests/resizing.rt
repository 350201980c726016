// Rounds whose table grows and shrinks.
ghost use Rattle.std.specs.Prelude.{◌≡◌, ◌≤◌, None};
ghost use Rattle.buckets.specs.Filling.{KnowsExponent};
ghost use Rattle.cells.specs.Tokens.{IsPassOf, IsSamePass};
ghost use Rattle.step_core.specs.Limits.{max_exponent};

use super::*;
use fset::ensure;
use step_core::{FIRST_BUCKET, bucket_count};

mod crews;
mod limits;
mod lone;
mod pairs;
mod random;
mod schedules;
mod scripts;
mod stale;

// The greatest exponent that a test resizes to.
const MOST: u32 = 6;

// Which way a table is resized.
#[derive(Clone, Copy, Debug, PartialEq, Eq)]
enum Way {
    Up,
    Down,
}

// Resizes the table, where its exponent stays below 7. Gives whether the head was exchanged.
fn resized(round: &Round, pass: &mut Pass, way: Way) -> bool
    requires pass { IsPassOf round.now pass.old }
    requires idle { pass.old.view.flight ≡ None }
    ensures pass { IsPassOf round.now pass.new × (pass.new.view.number ≡ pass.old.view.number) }
    ensures idle { pass.new.view.flight ≡ None }
{
    let outcome = match way {
        Way::Up if find_head(round, pass).exponent >= MOST => return false,
        Way::Up => grow(round, pass),
        Way::Down => shrink(round, pass),
    };
    matches!(outcome, Resized::Changed { .. })
}

// A generation that was found as the head.
#[derive(Clone, Copy, Debug, PartialEq, Eq)]
struct Head {
    at: u64,
    exponent: u32,
}

// The head, by a load of it and one of its exponent.
fn find_head(round: &Round, pass: &mut Pass) -> Head
    requires pass { IsPassOf round.now pass.old }
    ensures pass { IsSamePass pass.old pass.new }
    ensures idle { pass.new.view.flight ≡ pass.old.view.flight }
    ensures knows { KnowsExponent pass.new.view result.at result.exponent }
    ensures small { result.exponent ≤ max_exponent }
{
    let at = round.load_head(pass);
    let exponent = round.load_sealed(pass, at);
    round.sound(pass);
    Head {
        at,
        exponent: exponent as u32,
    }
}

// Fills the bucket of the head, where it is nil. Whether the head has that bucket, and there was room.
fn filled(round: &Round, pass: &mut Pass, bucket: u64) -> bool
    requires pass { IsPassOf round.now pass.old }
    ensures pass { IsSamePass pass.old pass.new }
    ensures idle { pass.new.view.flight ≡ pass.old.view.flight }
{
    let head = find_head(round, pass);
    if bucket >= bucket_count(head.exponent) {
        return false;
    }
    round.sound(pass);
    let word = round.load_bucket(pass, head.at + FIRST_BUCKET + bucket);
    word != 0 || ensure(round, pass, head.at, bucket).is_ok()
}
