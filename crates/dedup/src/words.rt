// The words of a run, read by `clap`.
ghost use Rattle.std.specs.Prelude.{◌≡◌, ◌≤◌, IfOk, IfErr, IfSome, true, false, length, map};
ghost use Rattle.std.specs.Char.{is_ascii_digit};
ghost use Rattle.std.specs.List.{list_all};
ghost use Rattle.clap.specs.Words.{app_of, found_of, rows_of, rule_of};
ghost use Rattle.dedup.specs.Limits.{most_room, most_workers};
ghost use Rattle.dedup.specs.Words.{KeepsLimits, MayRefuse, dedup_app, fault_of_kind, file_rule};
ghost use Rattle.dedup.specs.Words.{files_in, files_named, has_one_way, is_command, is_file_count};
ghost use Rattle.dedup.specs.Words.{is_read, list_asked, listing_in, listing_named, number_in};
ghost use Rattle.dedup.specs.Words.{option_rule, room_asked, room_in, rows_in, texts};
ghost use Rattle.dedup.specs.Words.{workers_asked, workers_in};

use crate::command::{
    Command, DEFAULT_ROOM, DEFAULT_WORKERS, Listing, MAX_FILES, MAX_ROOM, MAX_ROOM_DIGITS,
    MAX_WORKERS, MAX_WORKERS_DIGITS,
};
use crate::fault::Fault;
use clap::error::ErrorKind;
use clap::{Arg, ArgAction, ArgMatches};
use idfiles::IdFault;
use std::alloc::{AllocError, Global};

/// What the words ask for. The first of them is the program's name, whatever it is.
pub(crate) fn read_words<'a>(alloc: Global, words: &'a [String]) -> Result<Command<'a>, Fault>
    ensures words { IfOk result (λ _. is_command (texts words.now) ≡ true) }
    ensures workers { IfOk result (λ asked. asked.workers ≡ workers_asked (texts words.now)) }
    ensures room { IfOk result (λ asked. asked.room ≡ room_asked (texts words.now)) }
    ensures listing { IfOk result (λ asked. asked.listing ≡ list_asked (texts words.now)) }
    ensures files { IfOk result (λ asked. map (λ name. name.now) asked.files.items
        ≡ files_named (texts words.now)) }
    ensures fits { IfOk result (λ asked. KeepsLimits asked) }
    ensures refused { IfErr result (MayRefuse (is_command (texts words.now))) }
{
    let matches = parsed(alloc, words)?;
    if !has_one_way(&matches) {
        return Err(Fault::BadWords);
    }
    let Some(workers) = workers_in(&matches) else {
        return Err(Fault::BadWords);
    };
    let Some(room) = room_in(&matches) else {
        return Err(Fault::BadWords);
    };
    let Some(listing) = listing_in(&matches) else {
        return Err(Fault::BadWords);
    };
    let files = files_in(alloc, &matches)?;
    Ok(Command {
        workers: workers as u32,
        room,
        listing,
        files,
    })
}

fn parsed<'a>(alloc: Global, words: &'a [String]) -> Result<ArgMatches<'a>, Fault>
    ensures read { IfOk result (λ _. is_read (texts words.now) ≡ true) }
    ensures rows { IfOk result (λ matches. rows_of (found_of matches) ≡ rows_in (texts words.now)) }
    ensures refused { IfErr result (MayRefuse (is_read (texts words.now))) }
{
    let command = dedup_command(alloc)?;
    match command.try_get_matches_from(words) {
        Ok(matches) => Ok(matches),
        Err(error) => Err(fault_of(error.kind())),
    }
}

fn dedup_command<'a>(alloc: Global) -> Result<clap::Command<'a>, AllocError>
    ensures { IfOk result (λ command. app_of command ≡ dedup_app) }
{
    clap::Command::new(alloc, "dedup")
        .arg(option(alloc, "workers"))?
        .arg(option(alloc, "way"))?
        .arg(option(alloc, "room"))?
        .arg(option(alloc, "list"))?
        .arg(files(alloc))
}

fn option<'a>(alloc: Global, name: &'a str) -> Arg<'a>
    ensures rule { rule_of result ≡ option_rule name.entry.now }
    ensures local { result.global ≡ false }
{
    Arg::new(alloc, name).long(name).action(ArgAction::Set)
}

fn files<'a>(alloc: Global) -> Arg<'a>
    ensures rule { rule_of result ≡ file_rule }
    ensures local { result.global ≡ false }
{
    Arg::new(alloc, "FILE").action(ArgAction::Append)
}

fn fault_of(kind: ErrorKind) -> Fault
    ensures { result ≡ fault_of_kind kind }
{
    match kind {
        ErrorKind::OutOfMemory => Fault::Ids(IdFault::NoMemory),
        _ => Fault::BadWords,
    }
}

fn has_one_way(matches: &ArgMatches<'_>) -> bool
    ensures { result ≡ has_one_way (rows_of (found_of matches.now)) }
{
    match matches.get_str("way") {
        Some(value) => value == "try",
        None => true,
    }
}

fn workers_in(matches: &ArgMatches<'_>) -> Option<u64>
    ensures value { result ≡ workers_in (rows_of (found_of matches.now)) }
    ensures some { IfSome result (λ workers. 1 ≤ workers) }
    ensures fits { IfSome result (λ workers. workers ≤ most_workers) }
{
    match matches.get_str("workers") {
        Some(value) => number_in(value, MAX_WORKERS_DIGITS, 1, MAX_WORKERS),
        None => Some(DEFAULT_WORKERS),
    }
}

fn room_in(matches: &ArgMatches<'_>) -> Option<u64>
    ensures value { result ≡ room_in (rows_of (found_of matches.now)) }
    ensures fits { IfSome result (λ room. room ≤ most_room) }
{
    match matches.get_str("room") {
        Some(value) => number_in(value, MAX_ROOM_DIGITS, 0, MAX_ROOM),
        None => Some(DEFAULT_ROOM),
    }
}

fn number_in(value: &str, digits: usize, least: u64, most: u64) -> Option<u64>
    ensures value { result ≡ number_in digits least most value.now }
    ensures from { IfSome result (λ number. least ≤ number) }
    ensures to { IfSome result (λ number. number ≤ most) }
{
    if value.is_empty() || value.len() > digits || !has_digits_alone(value) {
        return None;
    }
    match value.parse::<u64>() {
        Ok(number) if least <= number && number <= most => Some(number),
        _ => None,
    }
}

fn has_digits_alone(value: &str) -> bool
    ensures { result ≡ list_all is_ascii_digit value.now }
{
    value.bytes().all(|byte| byte.is_ascii_digit())
}

fn listing_in(matches: &ArgMatches<'_>) -> Option<Listing>
    ensures { result ≡ listing_in (rows_of (found_of matches.now)) }
{
    match matches.get_str("list") {
        Some(value) => listing_named(value),
        None => Some(Listing::Keep),
    }
}

fn listing_named(value: &str) -> Option<Listing>
    ensures { result ≡ listing_named value.now }
{
    match value {
        "keep" => Some(Listing::Keep),
        "ids" => Some(Listing::Ids),
        "count" => Some(Listing::Count),
        _ => None,
    }
}

fn files_in<'a>(alloc: Global, matches: &ArgMatches<'a>) -> Result<Vec<&'a str>, Fault>
    ensures count { IfOk result (λ _.
        is_file_count (length (files_in (rows_of (found_of matches.now)))) ≡ true) }
    ensures files { IfOk result (λ files. map (λ name. name.now) files.items
        ≡ files_in (rows_of (found_of matches.now))) }
    ensures refused { IfErr result
        (MayRefuse (is_file_count (length (files_in (rows_of (found_of matches.now)))))) }
{
    match matches.get_strs("FILE") {
        None => Err(Fault::BadWords),
        Some(files) => copied(alloc, files),
    }
}

fn copied<'a>(alloc: Global, files: &[&'a str]) -> Result<Vec<&'a str>, Fault>
    ensures count { IfOk result (λ _. is_file_count (length files.now) ≡ true) }
    ensures files { IfOk result (λ copy. copy.items ≡ files.now) }
    ensures refused { IfErr result (MayRefuse (is_file_count (length files.now))) }
{
    if files.is_empty() || files.len() > MAX_FILES {
        return Err(Fault::BadWords);
    }
    Ok(files.to_vec(alloc)?)
}
