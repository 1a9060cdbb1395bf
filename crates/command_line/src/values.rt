// The values of options, read.
ghost use Rattle.std.specs.Prelude.{◌≡◌, ◌≤◌, IfOk, None, Some, codes, is_some};
ghost use Rattle.clap.specs.Words.{first_of, rows_of, found_of};
ghost use Rattle.std.specs.Str.{bytes_eq};
ghost use Rattle.command_line.specs.Values.{Answers, clients, connections, entry_report, fixture_report, id, if_given, if_key, if_path, key, match_length, messages, more, number, number_in, pages, path, profile, profile_named, report_named, report_of, season_report, store, table_report, without};

use crate::options::value_of;
use crate::words::{What, WordFault};
use clap::ArgMatches;
use fpl_base::{Gw, Key, Profile, Text, read_number};
use std::alloc::Global;

// The key of the operator.
pub fn key_of(alloc: Global, given: &ArgMatches<'_>) -> Result<Key, WordFault>
    ensures { Answers (key (rows_of (found_of given.now))) result }
{
    match value_of(given, "key") {
        Some(text) => key_in(alloc, text),
        None => Err(WordFault::Unread),
    }
}

fn key_in(alloc: Global, text: &str) -> Result<Key, WordFault>
    ensures { Answers (if_key text.now) result }
{
    match Key::new(alloc, text.as_bytes())? {
        Some(key) => Ok(key),
        None => Err(WordFault::Unread),
    }
}

// The path that an option has.
pub fn path_of(alloc: Global, given: &ArgMatches<'_>, name: &str) -> Result<Text, WordFault>
    ensures { Answers (path name.now (rows_of (found_of given.now))) result }
{
    match value_of(given, name) {
        Some(text) => path_in(alloc, text),
        None => Err(WordFault::Unread),
    }
}

// The path of the store, where one is named.
pub fn store_of(alloc: Global, given: &ArgMatches<'_>) -> Result<Option<Text>, WordFault>
    ensures { Answers (store (rows_of (found_of given.now))) result }
{
    match value_of(given, "store") {
        Some(text) => Ok(Some(path_in(alloc, text)?)),
        None => Ok(None),
    }
}

fn path_in(alloc: Global, text: &str) -> Result<Text, WordFault>
    ensures { Answers (if_path text.now) result }
{
    if text.len() == 0 {
        return Err(WordFault::Unread);
    }
    Ok(Text::new(alloc, text)?)
}

// The rules of the season, those of 2023/24 where none are named.
pub fn profile_of(given: &ArgMatches<'_>) -> Result<Profile, WordFault>
    ensures { Answers (profile (rows_of (found_of given.now))) result }
{
    match value_of(given, "profile") {
        Some(text) => profile_in(text),
        None => Ok(Profile::A),
    }
}

fn profile_in(text: &str) -> Result<Profile, WordFault>
    ensures { Answers (profile_named text.now) result }
{
    if is_word(text, "1") {
        Ok(Profile::A)
    } else if is_word(text, "2") {
        Ok(Profile::B)
    } else {
        Err(WordFault::Unread)
    }
}

// The number that an option has, within these bounds.
pub fn number_of(
    given: &ArgMatches<'_>,
    name: &str,
    least: u64,
    greatest: u64,
) -> Result<u64, WordFault>
    ensures said { Answers (number name.now least greatest (rows_of (found_of given.now))) result }
    ensures bounds { IfOk result (λ n. (least ≤ n) × (n ≤ greatest)) }
{
    match value_of(given, name) {
        Some(text) => number_in(text, least, greatest),
        None => Err(WordFault::Unread),
    }
}

fn number_in(text: &str, least: u64, greatest: u64) -> Result<u64, WordFault>
    ensures said { Answers (number_in least greatest text.now) result }
    ensures bounds { IfOk result (λ n. (least ≤ n) × (n ≤ greatest)) }
{
    match read_number(text.as_bytes(), greatest) {
        Some(value) => {
            if value < least {
                Err(WordFault::Unread)
            } else {
                Ok(value)
            }
        }
        None => Err(WordFault::Unread),
    }
}

// Whether what the season lacks is to be loaded.
pub fn more_of(given: &ArgMatches<'_>) -> bool
    ensures { result ≡ more (rows_of (found_of given.now)) }
{
    match value_of(given, "more") {
        Some(text) => is_word(text, "true"),
        None => false,
    }
}

// How many minutes a match has, 90 where nothing is said.
pub fn length_of(given: &ArgMatches<'_>) -> Result<u8, WordFault>
    ensures { Answers (match_length (rows_of (found_of given.now))) result }
{
    match value_of(given, "length") {
        Some(text) => {
            let number = number_in(text, 1, 120)?;
            Ok(number as u8)
        }
        None => Ok(90),
    }
}

// How many clients there may be at once, where they are gathered.
pub fn clients_of(given: &ArgMatches<'_>) -> Result<Option<u16>, WordFault>
    ensures { Answers (clients (rows_of (found_of given.now))) result }
{
    match value_of(given, "clients") {
        Some(text) => {
            let most = number_in(text, 1, 1_024)?;
            Ok(Some(most as u16))
        }
        None => Ok(None),
    }
}

// How many connections are served, each of which is a message where clients are gathered.
pub fn connections_of(given: &ArgMatches<'_>, most: Option<u16>) -> Result<u64, WordFault>
    ensures { Answers (connections most (rows_of (found_of given.now))) result }
{
    match most {
        Some(_) => messages_of(given),
        None => number_of(given, "connections", 1, 65_535),
    }
}

fn messages_of(given: &ArgMatches<'_>) -> Result<u64, WordFault>
    ensures { Answers (messages (first_of (codes "connections") (rows_of (found_of given.now))))
        result }
{
    match value_of(given, "connections") {
        Some(text) => number_in(text, 1, u64::MAX),
        None => Ok(u64::MAX),
    }
}

// The folder whose files are pages, where clients are gathered and one is named.
pub fn pages_of(
    alloc: Global,
    given: &ArgMatches<'_>,
    most: Option<u16>,
) -> Result<Option<Text>, WordFault>
    ensures { Answers (pages most (rows_of (found_of given.now))) result }
{
    match most {
        Some(_) => folder_of(alloc, given),
        None => no_folder(given),
    }
}

fn folder_of(alloc: Global, given: &ArgMatches<'_>) -> Result<Option<Text>, WordFault>
    ensures { Answers (if_given if_path (first_of (codes "pages") (rows_of (found_of given.now))))
        result }
{
    match value_of(given, "pages") {
        Some(text) => Ok(Some(path_in(alloc, text)?)),
        None => Ok(None),
    }
}

fn no_folder(given: &ArgMatches<'_>) -> Result<Option<Text>, WordFault>
    ensures { Answers (without (codes "pages") (rows_of (found_of given.now)) (Some None)) result }
{
    if is_given(given, "pages") {
        return Err(WordFault::Unread);
    }
    Ok(None)
}

// What a report shows.
pub fn what_of(given: &ArgMatches<'_>) -> Result<What, WordFault>
    ensures { Answers (report_of (rows_of (found_of given.now))) result }
{
    match value_of(given, "what") {
        Some(name) => report_of(given, name),
        None => Err(WordFault::Unread),
    }
}

fn report_of(given: &ArgMatches<'_>, name: &str) -> Result<What, WordFault>
    ensures { Answers (report_named (rows_of (found_of given.now)) name.now) result }
{
    if is_word(name, "season") {
        season_report(given)
    } else if is_word(name, "table") {
        table_report(given)
    } else if is_word(name, "fixture") {
        fixture_report(given)
    } else if is_word(name, "entry") {
        entry_report(given)
    } else {
        Err(WordFault::Unread)
    }
}

// A report on the season needs neither an id nor a gameweek, and where one is given it is not read.
fn season_report(given: &ArgMatches<'_>) -> Result<What, WordFault>
    ensures { Answers (season_report (rows_of (found_of given.now))) result }
{
    if is_given(given, "id") || is_given(given, "gameweek") {
        return Err(WordFault::Unread);
    }
    Ok(What::Season)
}

fn table_report(given: &ArgMatches<'_>) -> Result<What, WordFault>
    ensures { Answers (table_report (rows_of (found_of given.now))) result }
{
    if is_given(given, "gameweek") {
        return Err(WordFault::Unread);
    }
    let id = id_of(given)?;
    Ok(What::Table { id })
}

fn fixture_report(given: &ArgMatches<'_>) -> Result<What, WordFault>
    ensures { Answers (fixture_report (rows_of (found_of given.now))) result }
{
    if is_given(given, "gameweek") {
        return Err(WordFault::Unread);
    }
    let id = id_of(given)?;
    Ok(What::Fixture { id })
}

fn entry_report(given: &ArgMatches<'_>) -> Result<What, WordFault>
    ensures { Answers (entry_report (rows_of (found_of given.now))) result }
{
    let id = id_of(given)?;
    let gameweek = gameweek_of(given)?;
    Ok(What::Entry { id, gameweek })
}

fn id_of(given: &ArgMatches<'_>) -> Result<u32, WordFault>
    ensures { Answers (id (rows_of (found_of given.now))) result }
{
    let number = number_of(given, "id", 1, 4_294_967_295)?;
    Ok(number as u32)
}

// The gameweek that is named.
pub fn gameweek_of(given: &ArgMatches<'_>) -> Result<Gw, WordFault>
    ensures { Answers (number (codes "gameweek") 1 38 (rows_of (found_of given.now))) result }
{
    let number = number_of(given, "gameweek", 1, 38)?;
    match Gw::new(number as u8) {
        Some(gameweek) => Ok(gameweek),
        None => Err(WordFault::Unread),
    }
}

fn is_given(given: &ArgMatches<'_>, name: &str) -> bool
    ensures { result ≡ is_some (first_of name.now (rows_of (found_of given.now))) }
{
    match value_of(given, name) {
        Some(_) => true,
        None => false,
    }
}

pub fn is_word(text: &str, other: &str) -> bool
    ensures { result ≡ bytes_eq text.now other.now }
{
    text == other
}
