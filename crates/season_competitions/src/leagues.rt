// The commands on leagues.
ghost use Rattle.std.specs.Prelude.{◌≡◌, OnErr, OnOk, Option, option_copied, ℕ, List};
ghost use Rattle.std.specs.Option.{option_map};
ghost use Rattle.fpl_base.specs.declared.rule.Rule.{Rule};
ghost use Rattle.rule_book.specs.Entries.{entry_in};
ghost use Rattle.rule_book.specs.LeagueCalls.{draw_refusal};
ghost use Rattle.rule_book.specs.Refusals.{IsJudged};
ghost use Rattle.rule_book.specs.declared.league.LeagueKind.{LeagueKind};
ghost use Rattle.season_book.specs.Book.{caller_number};
ghost use Rattle.season_book.specs.Commands.{part_of};
ghost use Rattle.season_book.specs.LeagueCommands.{leagues_after};
ghost use Rattle.season_book.specs.declared.answer.Answer.TheVariants as answer;
ghost use Rattle.season_book.specs.declared.command.Command.TheVariants as command;
ghost use Rattle.season_book.specs.declared.part.Part.TheVariants as part;
ghost use Rattle.season_entries.specs.Deeds.{IsAnswered};
ghost use Rattle.season_competitions.specs.Leagues.{IsLeagueGranted, IsLeagueJudgedByBooks, league_answer_by};

use crate::known::{are_issued, registered};
use fpl_base::{Caller, Code, EntryId, Gw, LeagueId, Memory, Name, Refused, Rule};
use leagues_and_cups::{League, Leagues, check_order};
use manager_book::ManagerBook;
use rule_book::LeagueKind;
use season_book::{Answer, Command};
use season_entries::entries_are_known;
use season_facts::Season;

// The answer of a rule.
fn by_rule(judged: Result<(), Rule>) -> Result<(), Answer>
    ensures { (broken : Option Rule) → IsJudged broken judged
        → IsAnswered (option_map answer.Rule broken) result }
{
    match judged {
        Ok(()) => Ok(()),
        Err(rule) => Err(Answer::Rule(rule)),
    }
}

// The league of a number, if it is there.
fn league_there(leagues: &Leagues, number: u32) -> Option<&League>
    ensures { option_copied result ≡ entry_in leagues.now number }
{
    match LeagueId::new(number) {
        Some(league) => leagues.get(league),
        None => None,
    }
}

// What refuses a new league.
fn judge_create(
    season: &Season,
    managers: &ManagerBook,
    leagues: &Leagues,
    caller: &Caller,
    start: Gw,
) -> Result<(), Answer>
    ensures { (kind : LeagueKind) (name code : List ℕ)
        → IsAnswered
        (league_answer_by season.now managers.now.managers leagues.now (caller_number caller.now)
        (command.League kind name code start)) result }
{
    if start.get() > season.calendar().gameweeks() {
        return Err(Answer::Unknown);
    }
    let Some(entry) = registered(managers, caller) else {
        return Err(Answer::Rule(Rule::NotRegistered));
    };
    by_rule(leagues.judge_create(entry, start, season.calendar().locked()))
}

// What refuses a new member.
fn judge_join(
    season: &Season,
    managers: &ManagerBook,
    leagues: &Leagues,
    caller: &Caller,
    number: u32,
    code: &Code,
) -> Result<(), Answer>
    ensures { IsAnswered
        (league_answer_by season.now managers.now.managers leagues.now (caller_number caller.now)
        (command.Join number code.now)) result }
{
    // What the type tells of the season, for the prover.
    let _season = season;
    let Some(id) = LeagueId::new(number) else {
        return Err(Answer::Unknown);
    };
    let Some(_there) = leagues.get(id) else {
        return Err(Answer::Unknown);
    };
    let Some(entry) = registered(managers, caller) else {
        return Err(Answer::Rule(Rule::NotRegistered));
    };
    by_rule(leagues.judge_join(entry, id, code))
}

// What refuses the draw of a league.
fn judge_draw(
    season: &Season,
    managers: &ManagerBook,
    leagues: &Leagues,
    number: u32,
    order: &[EntryId],
) -> Result<(), Answer>
    ensures { (e : ℕ)
        → IsAnswered
        (league_answer_by season.now managers.now.managers leagues.now e
        (command.Draw number order.now)) result }
{
    let Some(league) = league_there(leagues, number) else {
        return Err(Answer::Unknown);
    };
    if !are_issued(managers, order) {
        return Err(Answer::Unknown);
    }
    by_rule(judge_order(league, order, season.calendar().locked()))
}

// What refuses an order of a league.
fn judge_order(league: &League, order: &[EntryId], locked: u8) -> Result<(), Rule>
    ensures { IsJudged (draw_refusal league.now order.now locked) result }
{
    if league.is_drawn() {
        return Err(Rule::LeagueClosed);
    }
    if league.start().get() <= locked {
        return Err(Rule::StartPassed {
            gameweek: league.start(),
        });
    }
    match league.kind() {
        LeagueKind::Classic => Err(Rule::DrawWrong),
        LeagueKind::Head => check_order(order, league.members()),
    }
}

// The same of each command.
fn judge_by_rows(
    season: &Season,
    managers: &ManagerBook,
    leagues: &Leagues,
    caller: &Caller,
    command: &Command,
) -> Result<(), Answer>
    requires { part_of command.now ≡ part.Leagues }
    ensures { IsAnswered
        (league_answer_by season.now managers.now.managers leagues.now
        (caller_number caller.now) command.now) result }
{
    match command {
        Command::League { start, .. } => judge_create(season, managers, leagues, caller, *start),
        Command::Join { league, code } => {
            judge_join(season, managers, leagues, caller, *league, code)
        }
        Command::Draw { league, order } => {
            judge_draw(season, managers, leagues, *league, order.as_slice())
        }
        _ => unreachable!(),
    }
}

/// The answer that refuses a caller's command on leagues; `Ok` where nothing does. It takes no memory. The first of these
/// that holds refuses it: `Unknown`, a gameweek, a league or an entry that it names is not there; then by the rules of
/// docs/RULES.md, "Leagues" and "Head-to-head leagues".
pub fn judge_league(
    season: &Season,
    managers: &ManagerBook,
    leagues: &Leagues,
    caller: &Caller,
    command: &Command,
) -> Result<(), Answer>
    requires { part_of command.now ≡ part.Leagues }
    ensures rows { IsAnswered
        (league_answer_by season.now managers.now.managers leagues.now
        (caller_number caller.now) command.now) result }
    ensures books { IsLeagueJudgedByBooks season.now managers.now.managers leagues.now
        (caller_number caller.now) command.now result }
    ensures granted { OnOk result
        (IsLeagueGranted season.now managers.now.managers leagues.now
        (caller_number caller.now) command.now) }
{
    // The law on which the clause of books stands, and that players are lawful and entries few, for the prover.
    entries_are_known();
    let _players = season.players().len();
    let _entries = managers.entries();
    judge_by_rows(season, managers, leagues, caller, command)
}

// Creates a league that nothing refuses.
fn do_create(
    season: &Season,
    managers: &ManagerBook,
    leagues: &mut Leagues,
    entry: EntryId,
    kind: LeagueKind,
    name: &Name,
    code: &Code,
    start: Gw,
) -> Result<(), Memory>
    requires granted { IsLeagueGranted season.now managers.now.managers leagues.old entry
        (command.League kind name.now code.now start) }
    ensures done { OnOk result
        (leagues.new
        ≡ leagues_after leagues.old entry (command.League kind name.now code.now start)) }
    ensures err { OnErr result (leagues.new ≡ leagues.old) }
{
    // What the type tells of the managers, for the prover.
    let _managers = managers;
    let name = name.copy()?;
    let code = code.copy()?;
    match leagues.create(entry, kind, name, code, start, season.calendar().locked()) {
        Ok(_) => Ok(()),
        Err(Refused::Memory) => Err(Memory),
        Err(Refused::Rule(_)) => unreachable!(),
    }
}

// Lets an entry join a league where nothing refuses it.
fn do_join(
    season: &Season,
    managers: &ManagerBook,
    leagues: &mut Leagues,
    entry: EntryId,
    number: u32,
    code: &Code,
) -> Result<(), Memory>
    requires granted { IsLeagueGranted season.now managers.now.managers leagues.old entry
        (command.Join number code.now) }
    ensures done { OnOk result
        (leagues.new ≡ leagues_after leagues.old entry (command.Join number code.now)) }
    ensures err { OnErr result (leagues.new ≡ leagues.old) }
{
    let (_season, _managers) = (season, managers);
    let Some(league) = LeagueId::new(number) else {
        unreachable!()
    };
    match leagues.join(entry, league, code) {
        Ok(()) => Ok(()),
        Err(Refused::Memory) => Err(Memory),
        Err(Refused::Rule(_)) => unreachable!(),
    }
}

// Draws a league where nothing refuses it.
fn do_draw(
    season: &Season,
    managers: &ManagerBook,
    leagues: &mut Leagues,
    number: u32,
    order: &[EntryId],
) -> Result<(), Memory>
    requires granted { (e : ℕ)
        × IsLeagueGranted season.now managers.now.managers leagues.old e
        (command.Draw number order.now) }
    ensures done { (e : ℕ)
        → OnOk result (leagues.new ≡ leagues_after leagues.old e (command.Draw number order.now)) }
    ensures err { OnErr result (leagues.new ≡ leagues.old) }
{
    let (_season, _managers) = (season, managers);
    let Some(id) = LeagueId::new(number) else {
        unreachable!()
    };
    let Some(league) = leagues.get(id) else {
        unreachable!()
    };
    match check_order(order, league.members()) {
        Ok(()) => leagues.set_order(id, order),
        Err(_) => unreachable!(),
    }
}

/// Does a caller's command on leagues that nothing refuses, as `judge_league` says; unchanged where memory is wanting.
pub fn do_league(
    season: &Season,
    managers: &ManagerBook,
    leagues: &mut Leagues,
    caller: &Caller,
    command: &Command,
) -> Result<(), Memory>
    requires part { part_of command.now ≡ part.Leagues }
    requires granted { IsLeagueGranted season.now managers.now.managers leagues.old
        (caller_number caller.now) command.now }
    ensures done { OnOk result
        (leagues.new ≡ leagues_after leagues.old (caller_number caller.now) command.now) }
    ensures err { OnErr result (leagues.new ≡ leagues.old) }
{
    match command {
        Command::League {
            kind,
            name,
            code,
            start,
        } => match caller {
            Caller::Entry(entry) => {
                do_create(season, managers, leagues, *entry, *kind, name, code, *start)
            }
            Caller::Operator => unreachable!(),
        },
        Command::Join { league, code } => match caller {
            Caller::Entry(entry) => do_join(season, managers, leagues, *entry, *league, code),
            Caller::Operator => unreachable!(),
        },
        Command::Draw { league, order } => do_draw(
            season,
            managers,
            leagues,
            *league,
            order.as_slice(),
        ),
        _ => unreachable!(),
    }
}
