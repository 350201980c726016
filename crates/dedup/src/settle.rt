// The inserts that a round refused, made on a plain set once it has ended.
ghost use Rattle.std.specs.Prelude.{◌≡◌, ℕ, ◌+◌, ◌<◌, ◌≤◌, ◌++◌, length, map, All, IfOk, option_to_list};
ghost use Rattle.std.specs.FinSet as set;
ghost use Rattle.std.specs.List.{filter};
ghost use Rattle.chain.specs.Chain.{number_of_entry};
ghost use Rattle.chain.specs.Changing.{is_changing};
ghost use Rattle.chain.specs.Workers.{AreSettled};
ghost use Rattle.set_model.specs.History.{set_after};
ghost use Rattle.step_core.specs.Limits.{max_passes};
ghost use Rattle.dedup.specs.Records.{asked_of};
ghost use Rattle.dedup.specs.Settling.{CanSettle, HasCall, SettlesHand, handed_in, lists_of};

use crate::worker::{Hand, Stop};
use idfiles::IdRecord;
use set_model::{Call, Entry, NoMemory, PlainSet};
use std::alloc::Global;

/// Makes the refused inserts of the workers on the set, in the order of the workers, and gives each
/// with its answer.
pub(crate) fn settle(
    alloc: Global,
    plain: &mut PlainSet,
    records: &[IdRecord],
    hands: &[Hand],
) -> Result<Vec<Entry>, NoMemory>
    requires hands { All (CanSettle records.now) hands.now }
    requires few { length hands.now ≤ max_passes }
    ensures settled { IfOk result (λ settled. AreSettled (asked_of records.now)
        (map handed_in hands.now) (set.contains plain.old) settled.items) }
    ensures set { IfOk result (λ settled. plain.new ≡ set_after plain.old settled.items) }
{
    let mut settled = Vec::new(alloc);
    for (who, hand) in hands.iter().enumerate() {
        if let Some(entry) = settle_last(plain, records, who as u32, hand)? {
            settled.push(entry)?;
        }
    }
    Ok(settled)
}

// Makes the worker's last insert, where it was refused.
fn settle_last(
    plain: &mut PlainSet,
    records: &[IdRecord],
    who: u32,
    hand: &Hand,
) -> Result<Option<Entry>, NoMemory>
    requires { CanSettle records.now hand.now }
    ensures { IfOk result (λ entry. SettlesHand (asked_of records.now) who (handed_in hand.now)
        plain.old plain.new (option_to_list entry)) }
{
    if hand.stop != Stop::Refused {
        return Ok(None);
    }
    let serial = hand.made.len() - 1;
    let key = records[hand.made[serial] as usize].id;
    let answer = plain.apply(Call::Insert, key)?;
    Ok(Some(Entry {
        who,
        serial: serial as u64,
        call: Call::Insert,
        key,
        answer,
    }))
}

/// Appends the numbers of the records whose settled insert changed the set.
pub(crate) fn append_changed(
    settled: &[Entry],
    hands: &[Hand],
    changed: &mut Vec<u32>,
) -> Result<(), NoMemory>
    requires { All (HasCall hands.now) settled.now }
    ensures { IfOk result (λ _. changed.new.items ≡ changed.old.items
        ++ map (number_of_entry (lists_of hands.now)) (filter is_changing settled.now)) }
{
    for entry in settled {
        if entry.answer {
            changed.push(hands[entry.who as usize].made[entry.serial as usize])?;
        }
    }
    Ok(())
}
