// The commands and their options, as `clap` knows them.
ghost use Rattle.std.specs.Prelude.{◌≡◌, IfOk, false, map, option_map};
ghost use Rattle.clap.specs.Words.{app_of, first_of, found_of, rows_of, rule_of, subcommand_rows_of, with_rule, with_subcommand};
ghost use Rattle.clap.specs.declared.builder.command.Command.TheViews.{out-Command};
ghost use Rattle.command_line.specs.Options.{IsCommand, IsParsed, bare, command_of, flag, load, option, season_host, with_further, with_options};

use crate::words::WordFault;
use clap::error::ErrorKind;
use clap::{Arg, ArgAction, ArgMatches, Command};
use std::alloc::{AllocError, Global};

/// What `clap` makes of the words: it refuses them exactly where it finds a fault in them, or memory runs out.
pub fn parse<'a>(alloc: Global, words: &'a [&'a str]) -> Result<ArgMatches<'a>, WordFault>
    ensures { IsParsed (map (λ w. w.now) words.entry.now) result }
{
    let command = host_command(alloc)?;
    match command.try_get_matches_from(words) {
        Ok(matches) => Ok(matches),
        Err(error) => match error.kind() {
            ErrorKind::OutOfMemory => Err(WordFault::Memory),
            _ => Err(WordFault::Unread),
        },
    }
}

// The host with its commands: the options of each that have to be given, and then those that may be left out.
fn host_command<'a>(alloc: Global) -> Result<Command<'a>, AllocError>
    ensures { IfOk result (IsCommand season_host) }
{
    let command = with_command(alloc, bare_command(alloc), "score", &[], &["profile"])?;
    let command = with_command(alloc, command, "pipe", &["key"], &["store"])?;
    let offered = &["connections", "clients", "pages", "store"];
    let command = with_command(alloc, command, "serve", &["key", "port"], offered)?;
    let command = with_load(alloc, command)?;
    let wanted = &["key", "store", "what"];
    let command = with_command(alloc, command, "report", wanted, &["id", "gameweek"])?;
    let command = with_command(alloc, command, "generate", &["seed"], &["store"])?;
    with_further(alloc, command)
}

// The command with the one that loads a season below it, which has a flag.
fn with_load<'a>(alloc: Global, command: Command<'a>) -> Result<Command<'a>, AllocError>
    requires { (out-Command command).has_globals ≡ false }
    ensures { IfOk result (IsCommand (with_subcommand (app_of command.entry) load.top)) }
{
    let wanted = &["key", "store", "dir", "split"];
    let bare = command_of(alloc, "load", wanted, &["profile"])?;
    let other = with_flag(alloc, bare, "more")?;
    command.subcommand(other)
}

// The command with a flag.
fn with_flag<'a>(
    alloc: Global,
    command: Command<'a>,
    name: &'a str,
) -> Result<Command<'a>, AllocError>
    requires { (out-Command command).has_globals ≡ false }
    ensures { IfOk result (IsCommand (with_rule (app_of command.entry) (flag name.entry.now))) }
{
    command.arg(flag(alloc, name))
}

// The flag `--name`.
fn flag<'a>(alloc: Global, name: &'a str) -> Arg<'a>
    ensures rule { rule_of result ≡ flag name.entry.now }
    ensures local { result.global ≡ false }
{
    Arg::new(alloc, name).long(name).action(ArgAction::SetTrue)
}

// The command with those below it that stand beside the season: the team of the week, the events of a match, a draft.
fn with_further<'a>(alloc: Global, command: Command<'a>) -> Result<Command<'a>, AllocError>
    requires { (out-Command command).has_globals ≡ false }
    ensures { IfOk result (IsCommand (with_further (app_of command.entry))) }
{
    let wanted = &["key", "store", "gameweek"];
    let command = with_command(alloc, command, "dream", wanted, &[])?;
    let wanted = &["key", "store", "fixture"];
    let command = with_command(alloc, command, "events", wanted, &["length"])?;
    with_command(alloc, command, "draft", &["key", "store", "members"], &[])
}

fn bare_command<'a>(alloc: Global) -> Command<'a>
    ensures { IsCommand bare result }
{
    Command::new(alloc, "kowhirupe")
        .no_binary_name(true)
        .disable_help_flag(true)
        .disable_help_subcommand(true)
        .disable_version_flag(true)
        .subcommand_required(true)
}

// The command with one more below it, of this name and with these options.
fn with_command<'a>(
    alloc: Global,
    command: Command<'a>,
    name: &'a str,
    wanted: &[&'a str],
    offered: &[&'a str],
) -> Result<Command<'a>, AllocError>
    requires { (out-Command command).has_globals ≡ false }
    ensures { IfOk result (IsCommand (with_subcommand (app_of command.entry) (command_of
        name.entry.now (map (λ n. n.now) wanted.now) (map (λ n. n.now) offered.now)).top)) }
{
    let other = command_of(alloc, name, wanted, offered)?;
    command.subcommand(other)
}

// A command of this name with these options.
fn command_of<'a>(
    alloc: Global,
    name: &'a str,
    wanted: &[&'a str],
    offered: &[&'a str],
) -> Result<Command<'a>, AllocError>
    ensures { IfOk result (IsCommand
        (command_of name.entry.now (map (λ n. n.now) wanted.now) (map (λ n. n.now) offered.now))) }
{
    let command = with_options(alloc, Command::new(alloc, name), true, wanted)?;
    with_options(alloc, command, false, offered)
}

// The command with these options, each of which has to be given, or may be left out.
fn with_options<'a>(
    alloc: Global,
    command: Command<'a>,
    required: bool,
    names: &[&'a str],
) -> Result<Command<'a>, AllocError>
    requires { (out-Command command).has_globals ≡ false }
    ensures { IfOk result (IsCommand (with_options (app_of command.entry) required
        (map (λ n. n.now) names.now))) }
{
    let mut command = command;
    for name in names {
        command = command.arg(option(alloc, name, required))?;
    }
    Ok(command)
}

// The option `--name`, which has to be given, or may be left out.
fn option<'a>(alloc: Global, name: &'a str, required: bool) -> Arg<'a>
    ensures rule { rule_of result ≡ option required name.entry.now }
    ensures local { result.global ≡ false }
{
    Arg::new(alloc, name).long(name).required(required)
}

/// The value of an option among what `clap` found for a command; `None` where it was not given.
pub fn value_of<'a>(given: &ArgMatches<'a>, name: &str) -> Option<&'a str>
    ensures { option_map (λ s. s.now) result ≡ first_of name.now (rows_of (found_of given.now)) }
{
    given.get_str(name)
}

/// The command that the words name, and what `clap` found for it.
pub fn entered<'b, 'a>(matches: &'b ArgMatches<'a>) -> Option<(&'a str, &'b ArgMatches<'a>)>
    ensures { option_map (λ p. (p.0.now, rows_of (found_of p.1.now))) result
        ≡ subcommand_rows_of matches.now }
{
    matches.subcommand()
}
