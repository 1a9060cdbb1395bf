// What views show of entries.
ghost use Rattle.std.specs.Prelude.{◌≡◌, ◌≤◌, ◌+◌, ◌==◌, ◌||◌, List, Some, None, length, map, nat_lt, if◌then◌else◌};
ghost use Rattle.rule_book.specs.Batch.{price_of};
ghost use Rattle.rule_book.specs.History.{Event};
ghost use Rattle.rule_book.specs.HistoryRules.{is_started};
ghost use Rattle.rule_book.specs.HistoryTeam.{is_begun};
ghost use Rattle.rule_book.specs.PlayerFigures.{position_in};
ghost use Rattle.season_ledger.specs.Rows.{AllUpTo};
ghost use Rattle.season_ledger.specs.Stands.{StandsFor};
ghost use Rattle.manager_book.specs.Managers.{season_of};
ghost use Rattle.season_book.specs.Book.{EntryFacts};
ghost use Rattle.season_book.specs.EntryViews.{entry_gameweek_shown, entry_shown, gameweek_seen, me_shown, pick_shown, player_in_slot};
ghost use Rattle.season_entries.specs.Entries.{AreEntries};
ghost use Rattle.season_views.specs.Cells.{AreKeptIn};
ghost use Rattle.season_views.specs.Entries.{OfEachHistory, me_with};

use crate::reading::{score_held, total_held};
use crate::seen::{Seen, SeenCells};
use crate::views::locked_gameweek;
use fpl_base::{EntryId, Gw, PlayerId, ReadCount, Tenths};
use player_market::selling_price;
use rule_book::{Pick, Team};
use season_book::{ShownEntryGameweek, ShownMe, ShownPick};
use season_ledger::rows_tell;
use std::sync::ledger::Ledger;

/// What a registered manager sees of his entry, whose last accepted command has the number `last`; `None` where he is
/// not registered. Team, chip, free transfers and cost are those of the next gameweek, or of the last one when the
/// season is over, and nothing was done for the entry in a later one. Each row of an entry and each cell that it reads is
/// a counted read, and it reads none of another entry (docs/RULES.md, "A team's score").
pub fn my_entry<L: Ledger>(
    seen: &Seen<L>,
    cells: &SeenCells<L>,
    entry: EntryId,
    last: u64,
    steps: &mut ReadCount<L>,
) -> Option<ShownMe>
    requires profile { seen.now.managers.profile ≡ seen.now.facts.profile }
    requires kept { AreKeptIn seen.now.facts seen.now.managers cells.now }
    requires later { AllUpTo (gameweek_seen seen.now.facts.calendar) (season_of seen.now.managers entry) }
    ensures value { (h : List Event)
        → StandsFor (position_in seen.now.facts.players) (season_of seen.now.managers entry) h
        → result ≡ (if is_started h then Some (me_shown seen.now.facts h entry last) else None) }
    ensures cost { steps.new ≤ steps.old + 4 }
{
    // The law that rows tell what their histories do, for the prover.
    rows_tell();
    let _first = seen.first(entry)?;
    let gameweek = gameweek_seen(seen);
    let team = seen.team_at(entry, gameweek, steps)?;
    let free = seen.free(entry, gameweek, steps);
    let cost = seen.cost(entry, gameweek, steps);
    let total = total_held(cells, entry, Gw::new(1).unwrap(), steps);
    Some(me_with(seen, entry, last, &team, free, cost, total))
}

// What a manager sees of his entry, with this team, free transfers, cost and total.
fn me_with<L: Ledger>(
    seen: &Seen<L>,
    entry: EntryId,
    last: u64,
    team: &Team,
    free: Option<u8>,
    cost: u32,
    total: i32,
) -> ShownMe
    ensures { result ≡ me_with seen.now.facts entry last team.now free cost total }
{
    ShownMe {
        entry,
        last,
        gameweek: seen.calendar().next(),
        players: picks_shown(seen, team),
        captain: player_in_slot(team, team.captain),
        vice: player_in_slot(team, team.vice),
        bank: team.bank,
        chip: team.chip,
        free,
        cost,
        total,
    }
}

// The gameweek whose team a manager sees of himself.
fn gameweek_seen<L: Ledger>(seen: &Seen<L>) -> Gw
    ensures { result ≡ gameweek_seen seen.now.facts.calendar }
{
    let next = seen.calendar().locked() + 1;
    Gw::new(next.min(seen.calendar().gameweeks())).unwrap()
}

// The players of a team with their prices, by slot.
fn picks_shown<L: Ledger>(seen: &Seen<L>, team: &Team) -> [ShownPick; 15]
    ensures { result ≡ map (pick_shown seen.now.facts.players) team.now.picks }
{
    let mut shown = [pick_shown(seen, &team.picks[0]); 15];
    for place in 0..15usize {
        shown[place] = pick_shown(seen, &team.picks[place]);
    }
    shown
}

// A player of a team, and what he would bring.
fn pick_shown<L: Ledger>(seen: &Seen<L>, pick: &Pick) -> ShownPick
    ensures { result ≡ pick_shown seen.now.facts.players pick.now }
{
    let price = price_of(seen, pick.player);
    ShownPick {
        player: pick.player,
        bought: pick.bought,
        price,
        sell: selling_price(pick.bought, price),
    }
}

// The present price of a player; 0 if he is not there, as no player of a team is.
fn price_of<L: Ledger>(seen: &Seen<L>, player: PlayerId) -> Tenths
    ensures { result ≡ price_of seen.now.facts.players player }
{
    match seen.players().get(player) {
        Some(there) => there.price,
        None => Tenths::new(0).unwrap(),
    }
}

// The player in a slot.
fn player_in_slot(team: &Team, slot: u8) -> PlayerId
    ensures { result ≡ player_in_slot team.now.picks slot }
{
    match team.picks.get(usize::from(slot.saturating_sub(1))) {
        Some(pick) => pick.player,
        None => team.picks[0].player,
    }
}

/// What an entry's team scored in a gameweek; `None` where the entry was not issued, is not registered, or has no team in
/// the gameweek, and where the gameweek is not locked. Each row of an entry and each cell that it reads is a
/// counted read (docs/RULES.md, "A team's score").
pub fn entry_gameweek<L: Ledger>(
    seen: &Seen<L>,
    cells: &SeenCells<L>,
    entry: u32,
    gameweek: u32,
    steps: &mut ReadCount<L>,
) -> Option<ShownEntryGameweek>
    requires profile { seen.now.managers.profile ≡ seen.now.facts.profile }
    requires kept { AreKeptIn seen.now.facts seen.now.managers cells.now }
    ensures value { (entries : List EntryFacts)
        → AreEntries seen.now.facts.players seen.now.managers.managers entries
        → result ≡ entry_shown seen.now.facts entries entry gameweek }
    ensures cost { steps.new ≤ steps.old + 2 }
{
    // That the ids of players rise, for the prover.
    let _count = seen.players().len();
    let there = issued(seen, entry)?;
    let locked = locked_gameweek(seen, gameweek)?;
    gameweek_of(seen, cells, there, locked, steps)
}

/// What an entry's team scored in a locked gameweek; none before its first.
pub fn gameweek_of<L: Ledger>(
    seen: &Seen<L>,
    cells: &SeenCells<L>,
    entry: EntryId,
    gameweek: Gw,
    steps: &mut ReadCount<L>,
) -> Option<ShownEntryGameweek>
    requires profile { seen.now.managers.profile ≡ seen.now.facts.profile }
    requires kept { AreKeptIn seen.now.facts seen.now.managers cells.now }
    requires locked { gameweek ≤ seen.now.facts.calendar.locked }
    ensures value { OfEachHistory seen.now.facts seen.now.managers entry
        (λ h. result
        ≡ (if is_begun h gameweek then Some (entry_gameweek_shown seen.now.facts h gameweek)
        else None)) }
    ensures cost { steps.new ≤ steps.old + 2 }
{
    // The law that rows tell what their histories do, for the prover.
    rows_tell();
    let team = seen.team_at(entry, gameweek, steps)?;
    let score = score_held(cells, entry, gameweek, steps)?;
    Some(ShownEntryGameweek {
        players: players_of(&team),
        chip: team.chip,
        score,
    })
}

/// The entry of this number, if it was issued.
pub fn issued<L: Ledger>(seen: &Seen<L>, number: u32) -> Option<EntryId>
    ensures { result
        ≡ (if number == 0 || nat_lt (length seen.now.managers.managers) number then None
        else Some number) }
{
    if number == 0 || number > seen.entries() {
        return None;
    }
    EntryId::new(number)
}

// The players of a team, by slot.
fn players_of(team: &Team) -> [PlayerId; 15]
    ensures { result ≡ map (λ pick. pick.player) team.now.picks }
{
    let mut players = [team.picks[0].player; 15];
    for place in 0..15usize {
        players[place] = team.picks[place].player;
    }
    players
}
