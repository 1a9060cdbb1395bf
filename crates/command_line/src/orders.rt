// What the words order.
ghost use Rattle.std.specs.Prelude.{◌≡◌, IfOk, map};
ghost use Rattle.std.specs.List.{list_any};
ghost use Rattle.clap.specs.Words.{found_of, rows_of, subcommand_rows_of};
ghost use Rattle.command_line.specs.Orders.{HasFewMembers, draft, dream, events, further_named, generate, is_dash, load, order_named, order_of, ordered, pipe, read, report, score, serve};
ghost use Rattle.command_line.specs.Values.{Answers};

use crate::options::{entered, parse};
use crate::values::{
    clients_of, connections_of, gameweek_of, is_word, key_of, length_of, more_of, number_of,
    pages_of, path_of, profile_of, store_of, what_of,
};
use crate::words::{WordFault, Words};
use clap::ArgMatches;
use fpl_base::{Memory, Text};
use std::alloc::Global;

/// What the words of the command line, without the program's name, order. `Unread` comes exactly where they are the
/// words of no command, `Memory` where memory ran out.
pub fn words_of(alloc: Global, words: &[Text]) -> Result<Words, WordFault>
    ensures ordered { Answers (ordered words.now) result }
    ensures few { IfOk result HasFewMembers }
{
    if has_dash(words) {
        return Err(WordFault::Unread);
    }
    let line = texts_of(alloc, words)?;
    read(alloc, line.as_slice())
}

fn has_dash(words: &[Text]) -> bool
    ensures { result ≡ list_any is_dash words.now }
{
    words.iter().any(|word| is_dash(word.text()))
}

// The word is dashes alone: an end of the options, or what stands for a standard stream elsewhere.
fn is_dash(word: &str) -> bool
    ensures { result ≡ is_dash word.now }
{
    is_word(word, "-") || is_word(word, "--")
}

fn texts_of<'a>(alloc: Global, words: &'a [Text]) -> Result<Vec<&'a str>, Memory>
    ensures { IfOk result (λ line. map (λ w. w.now) line.items ≡ words.entry.now) }
{
    let mut line = Vec::with_capacity(alloc, words.len())?;
    for word in words {
        line.push(word.text())?;
    }
    Ok(line)
}

fn read<'a>(alloc: Global, line: &'a [&'a str]) -> Result<Words, WordFault>
    ensures { Answers (read (map (λ w. w.now) line.entry.now)) result }
{
    let matches = parse(alloc, line)?;
    order_of(alloc, &matches)
}

// What the command says that the words name.
fn order_of(alloc: Global, matches: &ArgMatches<'_>) -> Result<Words, WordFault>
    ensures { Answers (order_of (subcommand_rows_of matches.now)) result }
{
    match entered(matches) {
        Some((name, given)) => named(alloc, name, given),
        None => Err(WordFault::Unread),
    }
}

// The command of this name, by the values of its options.
fn named(alloc: Global, name: &str, given: &ArgMatches<'_>) -> Result<Words, WordFault>
    ensures { Answers (order_named name.now (rows_of (found_of given.now))) result }
{
    if is_word(name, "score") {
        score(given)
    } else if is_word(name, "pipe") {
        pipe(alloc, given)
    } else if is_word(name, "serve") {
        serve(alloc, given)
    } else if is_word(name, "load") {
        load(alloc, given)
    } else if is_word(name, "report") {
        report(alloc, given)
    } else if is_word(name, "generate") {
        generate(alloc, given)
    } else {
        further_named(alloc, name, given)
    }
}

// The command of this name that stands beside the season.
fn further_named(alloc: Global, name: &str, given: &ArgMatches<'_>) -> Result<Words, WordFault>
    ensures { Answers (further_named name.now (rows_of (found_of given.now))) result }
{
    if is_word(name, "dream") {
        dream(alloc, given)
    } else if is_word(name, "events") {
        events(alloc, given)
    } else if is_word(name, "draft") {
        draft(alloc, given)
    } else {
        Err(WordFault::Unread)
    }
}

fn score(given: &ArgMatches<'_>) -> Result<Words, WordFault>
    ensures { Answers (score (rows_of (found_of given.now))) result }
{
    let profile = profile_of(given)?;
    Ok(Words::Score { profile })
}

fn pipe(alloc: Global, given: &ArgMatches<'_>) -> Result<Words, WordFault>
    ensures { Answers (pipe (rows_of (found_of given.now))) result }
{
    let key = key_of(alloc, given)?;
    let store = store_of(alloc, given)?;
    Ok(Words::Pipe { key, store })
}

fn serve(alloc: Global, given: &ArgMatches<'_>) -> Result<Words, WordFault>
    ensures { Answers (serve (rows_of (found_of given.now))) result }
{
    let key = key_of(alloc, given)?;
    let port = number_of(given, "port", 1, 65_535)?;
    let clients = clients_of(given)?;
    let connections = connections_of(given, clients)?;
    let pages = pages_of(alloc, given, clients)?;
    let store = store_of(alloc, given)?;
    Ok(Words::Serve {
        key,
        port: port as u16,
        clients,
        connections,
        pages,
        store,
    })
}

fn load(alloc: Global, given: &ArgMatches<'_>) -> Result<Words, WordFault>
    ensures { Answers (load (rows_of (found_of given.now))) result }
{
    let key = key_of(alloc, given)?;
    let store = path_of(alloc, given, "store")?;
    let dir = path_of(alloc, given, "dir")?;
    let split = number_of(given, "split", 0, 38)?;
    let profile = profile_of(given)?;
    Ok(Words::Load {
        key,
        store,
        dir,
        split: split as u8,
        profile,
        more: more_of(given),
    })
}

fn report(alloc: Global, given: &ArgMatches<'_>) -> Result<Words, WordFault>
    ensures { Answers (report (rows_of (found_of given.now))) result }
{
    let key = key_of(alloc, given)?;
    let store = path_of(alloc, given, "store")?;
    let what = what_of(given)?;
    Ok(Words::Report { key, store, what })
}

fn generate(alloc: Global, given: &ArgMatches<'_>) -> Result<Words, WordFault>
    ensures { Answers (generate (rows_of (found_of given.now))) result }
{
    let seed = number_of(given, "seed", 0, u64::MAX)?;
    let store = store_of(alloc, given)?;
    Ok(Words::Generate { seed, store })
}

fn dream(alloc: Global, given: &ArgMatches<'_>) -> Result<Words, WordFault>
    ensures { Answers (dream (rows_of (found_of given.now))) result }
{
    let key = key_of(alloc, given)?;
    let store = path_of(alloc, given, "store")?;
    let gameweek = gameweek_of(given)?;
    Ok(Words::Dream {
        key,
        store,
        gameweek,
    })
}

fn events(alloc: Global, given: &ArgMatches<'_>) -> Result<Words, WordFault>
    ensures { Answers (events (rows_of (found_of given.now))) result }
{
    let key = key_of(alloc, given)?;
    let store = path_of(alloc, given, "store")?;
    let fixture = number_of(given, "fixture", 1, 4_294_967_295)?;
    let length = length_of(given)?;
    Ok(Words::Events {
        key,
        store,
        fixture: fixture as u32,
        length,
    })
}

fn draft(alloc: Global, given: &ArgMatches<'_>) -> Result<Words, WordFault>
    ensures { Answers (draft (rows_of (found_of given.now))) result }
{
    let key = key_of(alloc, given)?;
    let store = path_of(alloc, given, "store")?;
    let members = number_of(given, "members", 2, 8)?;
    Ok(Words::Draft {
        key,
        store,
        members: members as u8,
    })
}
