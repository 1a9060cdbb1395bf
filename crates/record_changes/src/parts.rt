// The slots of the commands on each part of a book.
ghost use Rattle.std.specs.Prelude.{◌≡◌, ◌≤◌, ◌+◌, ◌++◌, ◌∷◌, List, Some, IfOk, length, map};
ghost use Rattle.std.specs.List.{range_with_len};
ghost use Rattle.rule_book.specs.declared.player.Player.{Player};
ghost use Rattle.rule_book.specs.EntryRecords.{sold_in};
ghost use Rattle.rule_book.specs.MatchFacts.{lines_of, players_in};
ghost use Rattle.rule_book.specs.Players.{ArePlayers};
ghost use Rattle.season_book.specs.Book.{Book, EntryFacts};
ghost use Rattle.season_book.specs.Commands.{IsCommand, club_ids, part_of};
ghost use Rattle.season_book.specs.EntryViews.{gameweek_seen};
ghost use Rattle.season_book.specs.LeagueViews.{history_of};
ghost use Rattle.season_book.specs.declared.part.Part.TheVariants as part;
ghost use Rattle.season_entries.specs.Entries.{AreEntries};
ghost use Rattle.season_records.specs.declared.slot.Slot.TheVariants as slot;
ghost use Rattle.season_records.specs.Touched as records;

use crate::listing::{add_clubs, add_left, add_lines, add_transfers, one, three, two};
use crate::seeking::sheet_at;
use fpl_base::{EntryId, Gw, Memory, PlayerId};
use leagues_and_cups::{Cups, Leagues};
use manager_book::ManagerBook;
use match_facts::MatchFacts;
use season_book::{Clubs, Command, Lines, Swaps};
use season_calendar::Calendar;
use season_entries::entries_are_issued;
use season_facts::Season;
use season_records::Slot;
use std::alloc::Global;

// Those of a command on the facts.
pub fn fact_slots(
    alloc: Global,
    season: &Season,
    caller: u32,
    command: &Command,
) -> Result<Vec<Slot>, Memory>
    requires { part_of command.now ≡ part.Facts }
    ensures { (book : Book) → book.facts ≡ Some season.now
        → IfOk result
        (λ slots. slots.items ≡ slot.Last caller ∷ records.touched_by book caller command.now) }
{
    let last = Slot::Last(caller);
    match *command {
        Command::Season { ref clubs, .. } => season_slots(alloc, last, clubs),
        Command::Deadline { .. } => two(alloc, last, Slot::Season),
        Command::Player { id, .. } => two(alloc, last, Slot::Player(id.get())),
        Command::Price { player, .. }
        | Command::Club { player, .. }
        | Command::Gone { player, .. } => two(alloc, last, Slot::Player(player.get())),
        Command::Fixture { id, .. } => two(alloc, last, Slot::Fixture(id.get())),
        Command::Move { fixture, .. }
        | Command::AmendFixture { fixture, .. }
        | Command::Finished { fixture, .. } => { two(alloc, last, Slot::Fixture(fixture)) }
        Command::Sheet {
            fixture,
            ref lines,
            ..
        } => sheet_slots(alloc, last, season.matches(), fixture, lines),
        Command::Line {
            fixture,
            player,
            ..
        }
        | Command::Drop { fixture, player } => two(alloc, last, Slot::Line(fixture, player.get())),
        _ => one(alloc, last),
    }
}

// Those of the command that begins a season.
pub fn season_slots(alloc: Global, last: Slot, clubs: &Clubs) -> Result<Vec<Slot>, Memory>
    ensures { IfOk result
        (λ slots. slots.items ≡ last ∷ slot.Season ∷ map slot.Club (club_ids clubs.now)) }
{
    let mut slots = two(alloc, last, Slot::Season)?;
    add_clubs(&mut slots, clubs.as_slice())?;
    Ok(slots)
}

// Those of a sheet: its fixture, and the lines of the players who had one and have none now, and of those who have one now.
fn sheet_slots(
    alloc: Global,
    last: Slot,
    matches: &MatchFacts,
    fixture: u32,
    lines: &Lines,
) -> Result<Vec<Slot>, Memory>
    ensures { IfOk result
        (λ slots. slots.items
        ≡ last ∷ slot.Fixture fixture
        ∷ map (slot.Line fixture)
        (records.players_left (players_in (lines_of matches.now fixture)) (players_in lines.now)
        ++ players_in lines.now)) }
{
    let mut slots = two(alloc, last, Slot::Fixture(fixture))?;
    add_left(
        &mut slots,
        fixture,
        players_before(matches, fixture),
        lines.as_slice(),
    )?;
    add_lines(&mut slots, fixture, lines.as_slice())?;
    Ok(slots)
}

// The players who have a line in a fixture.
fn players_before(matches: &MatchFacts, fixture: u32) -> &[PlayerId]
    ensures { result.now ≡ players_in (lines_of matches.now fixture) }
{
    match sheet_at(matches, fixture) {
        Some(id) => matches.players_of(id),
        None => &[],
    }
}

// Those of the command of a manager.
pub fn deed_slots(
    alloc: Global,
    season: &Season,
    managers: &ManagerBook,
    entry: u32,
    command: &Command,
) -> Result<Vec<Slot>, Memory>
    requires read { IsCommand command.now }
    requires part { part_of command.now ≡ part.Deeds }
    ensures { (book : Book) → book.facts ≡ Some season.now
        → AreEntries season.now.players managers.now.managers book.entries
        → IfOk result
        (λ slots. slots.items ≡ slot.Last entry ∷ records.touched_by book entry command.now) }
{
    // That the ids of players differ, for the prover.
    let _count = season.players().len();
    let gameweek = gameweek_of(season.calendar());
    let last = Slot::Last(entry);
    let team = Slot::Team(entry, u32::from(gameweek.get()));
    match command {
        Command::Squad { .. } => three(alloc, last, Slot::Entry(entry), team),
        Command::Transfers { swaps } => { transfer_slots(alloc, managers, entry, gameweek, swaps) }
        _ => two(alloc, last, team),
    }
}

// The next gameweek, or the last one where all are locked.
fn gameweek_of(calendar: &Calendar) -> Gw
    ensures { result ≡ gameweek_seen calendar.now }
{
    let next = calendar.locked() + 1;
    Gw::new(next.min(calendar.gameweeks())).unwrap()
}

// Those of a batch of transfers: the team, and as many transfers as it has, behind those of the gameweek.
fn transfer_slots(
    alloc: Global,
    managers: &ManagerBook,
    entry: u32,
    gameweek: Gw,
    swaps: &Swaps,
) -> Result<Vec<Slot>, Memory>
    requires { length swaps.now ≤ 15 }
    ensures { (players : List Player) (entries : List EntryFacts) → ArePlayers players
        → AreEntries players managers.now.managers entries
        → IfOk result
        (λ slots. slots.items
        ≡ slot.Last entry ∷ slot.Team entry gameweek
        ∷ map (slot.Transfer entry gameweek)
        (range_with_len (length (sold_in (history_of entries entry) gameweek) + 1)
        (length swaps.now))) }
{
    let g = u32::from(gameweek.get());
    let made = transfers_made(managers, entry, gameweek);
    let mut slots = two(alloc, Slot::Last(entry), Slot::Team(entry, g))?;
    add_transfers(
        &mut slots,
        entry,
        g,
        made + 1,
        swaps.as_slice().len() as u32,
    )?;
    Ok(slots)
}

// How many transfers an entry made in a gameweek.
fn transfers_made(managers: &ManagerBook, entry: u32, gameweek: Gw) -> u32
    ensures few { result ≤ 1000 }
    ensures made { (players : List Player) (entries : List EntryFacts) → ArePlayers players
        → AreEntries players managers.now.managers entries
        → result ≡ length (sold_in (history_of entries entry) gameweek) }
{
    // The law on which entries are there, for the prover.
    entries_are_issued();
    match EntryId::new(entry) {
        Some(id) => match managers.manager(id) {
            Some(manager) => u32::from(manager.season.made(gameweek)),
            None => 0,
        },
        None => 0,
    }
}

// Those of a command on leagues.
pub fn league_slots(
    alloc: Global,
    leagues: &Leagues,
    caller: u32,
    command: &Command,
) -> Result<Vec<Slot>, Memory>
    requires { part_of command.now ≡ part.Leagues }
    ensures { (book : Book) → book.leagues ≡ leagues.now
        → IfOk result
        (λ slots. slots.items ≡ slot.Last caller ∷ records.touched_by book caller command.now) }
{
    let last = Slot::Last(caller);
    match *command {
        Command::League { .. } => {
            let league = leagues.count() + 1;
            three(
                alloc,
                last,
                Slot::League(league),
                Slot::Member(league, caller),
            )
        }
        Command::Join { league, .. } => two(alloc, last, Slot::Member(league, caller)),
        Command::Draw { league, .. } => two(alloc, last, Slot::League(league)),
        _ => one(alloc, last),
    }
}

// Those of the command that makes an entry.
pub fn entry_slots(
    alloc: Global,
    managers: &ManagerBook,
    caller: u32,
    command: &Command,
) -> Result<Vec<Slot>, Memory>
    requires { part_of command.now ≡ part.Entries }
    ensures { (book : Book) → length book.entries ≡ length managers.now.managers
        → IfOk result
        (λ slots. slots.items ≡ slot.Last caller ∷ records.touched_by book caller command.now) }
{
    let last = Slot::Last(caller);
    match command {
        Command::Key { .. } => two(alloc, last, Slot::Entry(managers.entries() + 1)),
        _ => one(alloc, last),
    }
}

// Those of another name and another position of a player.
pub fn player_slots(alloc: Global, caller: u32, command: &Command) -> Result<Vec<Slot>, Memory>
    requires { part_of command.now ≡ part.Players }
    ensures { (book : Book)
        → IfOk result
        (λ slots. slots.items ≡ slot.Last caller ∷ records.touched_by book caller command.now) }
{
    let last = Slot::Last(caller);
    match *command {
        Command::AmendPlayer { player, .. } => two(alloc, last, Slot::Player(player)),
        _ => one(alloc, last),
    }
}

// Those of another key of an entry.
pub fn key_slots(alloc: Global, caller: u32, command: &Command) -> Result<Vec<Slot>, Memory>
    requires { part_of command.now ≡ part.Keys }
    ensures { (book : Book)
        → IfOk result
        (λ slots. slots.items ≡ slot.Last caller ∷ records.touched_by book caller command.now) }
{
    let last = Slot::Last(caller);
    match *command {
        Command::Rekey { entry, .. } => two(alloc, last, Slot::Entry(entry)),
        _ => one(alloc, last),
    }
}

// Those of the draw of a cup.
pub fn cup_slots(
    alloc: Global,
    cups: &Cups,
    caller: u32,
    command: &Command,
) -> Result<Vec<Slot>, Memory>
    requires { part_of command.now ≡ part.Cups }
    ensures { (book : Book) → book.cups ≡ cups.now
        → IfOk result
        (λ slots. slots.items ≡ slot.Last caller ∷ records.touched_by book caller command.now) }
{
    let last = Slot::Last(caller);
    match command {
        Command::Cup { .. } => two(alloc, last, Slot::Cup(cups.count() + 1)),
        _ => one(alloc, last),
    }
}
