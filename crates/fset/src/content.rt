// Looking for a key in a row.
ghost use Rattle.std.specs.Prelude.{◌≡◌, ◌<◌, ◌≤◌, length, slice_index};
ghost use Rattle.cells.specs.Frames.{after_reads};
ghost use Rattle.cells.specs.Known.{keys_at};
ghost use Rattle.cells.specs.Tokens.{IsPassOf, IsSamePass};
ghost use Rattle.fset.specs.Content.{loads_to_find, seen_content};
ghost use Rattle.fset.specs.Seen.{KnowsRowAt, IsSeen};
ghost use Rattle.set_model.specs.Keys.{is_in};
ghost use Rattle.step_core.specs.Rising.{place_in};

use crate::Seen;
use cells::{Pass, Round};
use step_core::key_place;

/// Whether the content of the row has the key. So many keys are loaded as are below it, and the next
/// one, if there is one. The pass knows no more than before.
pub fn find(round: &Round, pass: &mut Pass, seen: &Seen, key: u64) -> bool
    requires pass { IsPassOf round.now pass.old }
    requires knows { IsSeen pass.old.view seen.now }
    ensures pass { IsSamePass pass.old pass.new }
    ensures answer { result ≡ seen_content pass.old.view seen.now key }
    ensures view { pass.new.view
        ≡ after_reads (loads_to_find (keys_at pass.old.view seen.now.at) key) pass.old.view }
{
    // No operation is published yet, so the content is the keys.
    round.sound(pass);
    place_among(round, pass, seen, key).taken
}

// The place of a key among the keys of a row.
#[derive(Clone, Copy, Debug, PartialEq, Eq)]
pub(crate) struct Place {
    // How many keys are below it.
    pub(crate) before: u64,
    // Whether it stands behind them.
    pub(crate) taken: bool,
}

// The place of the key. The keys rise, so none is loaded behind it.
pub(crate) fn place_among(round: &Round, pass: &mut Pass, seen: &Seen, key: u64) -> Place
    requires pass { IsPassOf round.now pass.old }
    requires knows { IsSeen pass.old.view seen.now }
    ensures pass { IsSamePass pass.old pass.new }
    ensures before { result.before ≡ place_in (keys_at pass.old.view seen.now.at) key }
    ensures within { result.before ≤ seen.now.count }
    ensures taken { result.taken ≡ is_in (keys_at pass.old.view seen.now.at) key }
    ensures view { pass.new.view
        ≡ after_reads (loads_to_find (keys_at pass.old.view seen.now.at) key) pass.old.view }
{
    round.sound(pass);
    for i in 0..seen.count {
        let found = key_at(round, pass, seen.at, i);
        if found >= key {
            return Place {
                before: i,
                taken: found == key,
            };
        }
    }
    Place {
        before: seen.count,
        taken: false,
    }
}

// The key number `i` of a known row, from 0.
pub(crate) fn key_at(round: &Round, pass: &mut Pass, at: u64, i: u64) -> u64
    requires pass { IsPassOf round.now pass.old }
    requires knows { KnowsRowAt pass.old.view at }
    requires fits { i < length (keys_at pass.old.view at) }
    ensures pass { IsSamePass pass.old pass.new }
    ensures answer { result ≡ slice_index (keys_at pass.old.view at) i }
    ensures view { pass.new.view ≡ after_reads 1 pass.old.view }
{
    round.sound(pass);
    round.load_sealed(pass, key_place(at, i))
}
