// The output as one text.
ghost use Rattle.std.specs.Prelude.{◌≡◌, ℕ, ◌<◌, [], List, All, IfOk, flat_map, length};
ghost use Rattle.chain.specs.Chain.{RoundEnd};
ghost use Rattle.dedup.specs.Output.{IsListing, kept_line};
ghost use Rattle.dedup.specs.Records.{AreSorted};
ghost use Rattle.dedup.specs.Rounds.{HasInserted};
ghost use Rattle.step_core.specs.declared.layout.Plan.{Plan};
ghost use Rattle.idfiles.specs.Print.{count_line, id_line};

use crate::command::Listing;
use crate::phase::Inserted;
use idfiles::{IdRecord, count_line, id_line, keep_line};
use set_model::NoMemory;
use std::alloc::Global;

/// The text of the list that is asked for.
pub(crate) fn text_of(
    alloc: Global,
    listing: Listing,
    records: &[IdRecord],
    inserted: &Inserted,
) -> Result<Vec<u8>, NoMemory>
    requires { All (λ number. number < length records.now) inserted.now.changed.items }
    ensures { IfOk result (λ text. (rounds : List RoundEnd) (plan : Plan)
        → HasInserted records.now plan rounds inserted.now.keys.items []
        inserted.now.changed.items → IsListing listing records.now rounds text.items) }
{
    match listing {
        Listing::Keep => kept_text(alloc, &kept(alloc, records, &inserted.changed)?),
        Listing::Ids => ids_text(alloc, &inserted.keys),
        Listing::Count => counts_text(alloc, records.len() as u64, inserted.keys.len() as u64),
    }
}

// The records with these numbers, by their ids.
fn kept(alloc: Global, records: &[IdRecord], numbers: &[u32]) -> Result<Vec<IdRecord>, NoMemory>
    requires { All (λ number. number < length records.now) numbers.now }
    ensures { IfOk result (λ kept. AreSorted records.now numbers.now kept.items) }
{
    let mut kept = Vec::with_capacity(alloc, numbers.len())?;
    for number in numbers {
        kept.push(records[*number as usize])?;
    }
    kept.sort_unstable_by_key(|record| record.id);
    Ok(kept)
}

// A line for each record.
fn kept_text(alloc: Global, kept: &[IdRecord]) -> Result<Vec<u8>, NoMemory>
    ensures { IfOk result (λ text. text.items ≡ flat_map kept_line kept.now) }
{
    let mut text = Vec::new(alloc);
    let mut buf = [0u8; 64];
    for record in kept {
        let len = keep_line(record.id, record.file, record.line, &mut buf);
        text.extend_from_slice(&buf[..len])?;
    }
    Ok(text)
}

// A line for each id.
fn ids_text(alloc: Global, ids: &[u64]) -> Result<Vec<u8>, NoMemory>
    ensures { IfOk result (λ text. text.items ≡ flat_map id_line ids.now) }
{
    let mut text = Vec::new(alloc);
    let mut buf = [0u8; 64];
    for id in ids {
        let len = id_line(*id, &mut buf);
        text.extend_from_slice(&buf[..len])?;
    }
    Ok(text)
}

// The line of the numbers.
fn counts_text(alloc: Global, records: u64, ids: u64) -> Result<Vec<u8>, NoMemory>
    ensures { IfOk result (λ text. text.items ≡ count_line records ids) }
{
    let mut buf = [0u8; 64];
    let len = count_line(records, ids, &mut buf);
    Ok(Vec::from_slice(alloc, &buf[..len])?)
}
