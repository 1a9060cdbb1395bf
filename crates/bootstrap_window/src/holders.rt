// Who holds a player in the gameweek that was locked last, by one pass over the entries.
ghost use Rattle.std.specs.Prelude.{◌≡◌, ◌≤◌, ◌<◌, ◌+◌, ◌-◌, ◌==◌, ◌^◌, ◌&&◌, ◌++◌, ◌∷◌, [], ℕ, IfOk, List, OnOk, Some, false, length, not, slice_get, take, if◌then◌else◌};
ghost use Rattle.rule_book.specs.declared.team.Pick.{Pick};
ghost use Rattle.rule_book.specs.Entries.{entry_in};
ghost use Rattle.season_book.specs.Book.{EntryFacts};
ghost use Rattle.season_book.specs.EntryTotals.{is_in};
ghost use Rattle.season_views.specs.Seen.{OfEachSeen};
ghost use Rattle.season_book.specs.Elements.{is_picked};
ghost use Rattle.season_book.specs.Elements.{entries_now};
ghost use Rattle.bootstrap_window.specs.Tables.{AreHeld, count_in};

use fpl_base::{EntryId, Gw, PlayerId, ReadCount};
use rule_book::{Pick, Team};
use season_entries::entries_are_issued;
use season_views::Seen;
use std::alloc::{AllocError, Global};
use std::collections::HashMap;
use std::sync::ledger::Ledger;

/// How many hold each player, by his number; of one whom nobody holds nothing stands there.
pub(crate) type Counts = HashMap<u32, u32>;

/// How many entries hold each player, and how many entries there are.
#[derive(Drop)]
pub(crate) struct Holders {
    pub(crate) counts: Counts,
    pub(crate) entries: u32,
}

/// By how many of the entries in the gameweek that was locked last each player is held in it. Each team is read once.
pub(crate) fn holders_now<L: Ledger>(
    alloc: Global,
    seen: &Seen<L>,
    steps: &mut ReadCount<L>,
) -> Result<Holders, AllocError>
    ensures value { IfOk result
        (λ holders. OfEachSeen seen.now
        (λ entries. AreHeld seen.now.facts seen.now.facts.calendar.locked
        (entries_now seen.now.facts entries) holders)) }
    ensures cost { steps.new ≤ steps.old + length seen.now.managers.managers }
{
    let mut holders = Holders {
        counts: HashMap::new(alloc),
        entries: 0,
    };
    let Some(gameweek) = Gw::new(seen.calendar().locked()) else {
        return Ok(holders);
    };
    // The law on which entries are there, for the prover.
    entries_are_issued();
    for place in 0..seen.entries() {
        let entry = EntryId::new(place + 1).unwrap();
        count_entry(&mut holders, seen, entry, gameweek, steps)?;
    }
    Ok(holders)
}

// With an entry more, if it is in the gameweek.
fn count_entry<L: Ledger>(
    holders: &mut Holders,
    seen: &Seen<L>,
    entry: EntryId,
    gameweek: Gw,
    steps: &mut ReadCount<L>,
) -> Result<(), AllocError>
    requires few { (p : ℕ) → count_in holders.old.counts p < 2 ^ 32 - 1 }
    requires entries { holders.old.entries < 2 ^ 32 - 1 }
    ensures value { OfEachSeen seen.now
        (λ entries. (row : EntryFacts) → entry_in entries entry ≡ Some row
        → (rows : List (ℕ × EntryFacts)) → AreHeld seen.now.facts gameweek rows holders.old
        → OnOk result (AreHeld seen.now.facts gameweek
        (rows ++ (if is_in row gameweek then (entry, row) ∷ [] else [])) holders.new)) }
    ensures few { OnOk result
        ((p : ℕ) → count_in holders.new.counts p ≤ count_in holders.old.counts p + 1) }
    ensures entries { OnOk result (holders.new.entries ≤ holders.old.entries + 1) }
    ensures cost { steps.new ≡ steps.old + 1 }
{
    // The law that the ids of players rise, for the prover.
    let _count = seen.players().len();
    match seen.team_at(entry, gameweek, steps) {
        Some(team) => {
            count_team(&mut holders.counts, &team)?;
            holders.entries += 1;
            Ok(())
        }
        None => Ok(()),
    }
}

// The counts with those of a team's players one greater.
fn count_team(counts: &mut Counts, team: &Team) -> Result<(), AllocError>
    requires { (p : ℕ) → count_in counts.old p < 2 ^ 32 - 1 }
    ensures { OnOk result ((p : ℕ) → count_in counts.new p
        ≡ count_in counts.old p + (if is_picked team.now.picks p then 1 else 0)) }
{
    count_picks(counts, &team.picks)
}

fn count_picks(counts: &mut Counts, picks: &[Pick]) -> Result<(), AllocError>
    requires { (p : ℕ) → count_in counts.old p < 2 ^ 32 - 1 }
    ensures { OnOk result ((p : ℕ) → count_in counts.new p
        ≡ count_in counts.old p + (if is_picked picks.now p then 1 else 0)) }
{
    for place in 0..picks.len() {
        count_pick(counts, picks, place)?;
    }
    Ok(())
}

// The counts with that of the player at a place one greater, where he does not stand before it too.
fn count_pick(counts: &mut Counts, picks: &[Pick], place: usize) -> Result<(), AllocError>
    requires there { place < length picks.now }
    requires few { (pick : Pick) → slice_get picks.now place ≡ Some pick
        → is_picked (take place picks.now) pick.player ≡ false
        → count_in counts.old pick.player < 2 ^ 32 - 1 }
    ensures { OnOk result ((p : ℕ) (pick : Pick) → slice_get picks.now place ≡ Some pick
        → count_in counts.new p
        ≡ count_in counts.old p
        + (if (pick.player == p) && not (is_picked (take place picks.now) p) then 1 else 0)) }
{
    let player = player_at(picks, place);
    if stands_before(picks, place, player) {
        return Ok(());
    }
    count_player(counts, player)?;
    Ok(())
}

fn player_at(picks: &[Pick], place: usize) -> PlayerId
    requires { place < length picks.now }
    ensures { (pick : Pick) → slice_get picks.now place ≡ Some pick → result ≡ pick.player }
{
    picks[place].player
}

// Whether a player stands before a place.
fn stands_before(picks: &[Pick], place: usize, player: PlayerId) -> bool
    requires { place ≤ length picks.now }
    ensures { result ≡ is_picked (take place picks.now) player }
{
    is_picked(&picks[..place], player)
}

// The counts with that of a player one greater.
fn count_player(counts: &mut Counts, player: PlayerId) -> Result<(), AllocError>
    requires { count_in counts.old player < 2 ^ 32 - 1 }
    ensures own { OnOk result (count_in counts.new player ≡ count_in counts.old player + 1) }
    ensures others { OnOk result
        ((p : ℕ) → (player == p) ≡ false → count_in counts.new p ≡ count_in counts.old p) }
{
    let before = count_in(counts, player);
    counts.insert(player.get(), before + 1)?;
    Ok(())
}

/// How many hold a player.
pub(crate) fn count_in(counts: &Counts, player: PlayerId) -> u32
    ensures { result ≡ count_in counts.now player }
{
    match counts.get(&player.get()) {
        Some(count) => *count,
        None => 0,
    }
}

// Whether a player is among these.
fn is_picked(picks: &[Pick], player: PlayerId) -> bool
    ensures { result ≡ is_picked picks.now player }
{
    picks.iter().any(|pick| pick.player == player)
}
