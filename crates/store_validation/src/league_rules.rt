// The rules on entries, leagues, members, cups and last commands.
ghost use Rattle.std.specs.Prelude.{◌≡◌, ◌==◌, ◌&&◌, map, not};
ghost use Rattle.std.specs.List.{list_all, list_any};
ghost use Rattle.std.specs.Option.{option_map};
ghost use Rattle.fpl_base.specs.Keeping.{map_of};
ghost use Rattle.rule_book.specs.CupCalls.{entrants};
ghost use Rattle.rule_book.specs.Cups.{is_cup};
ghost use Rattle.rule_book.specs.HeadToHead.{is_draw};
ghost use Rattle.rule_book.specs.LeagueCalls.{is_head, most_members};
ghost use Rattle.season_records.specs.ItemReading.{item_of};
ghost use Rattle.season_records.specs.declared.slot.Slot.TheVariants as slot;
ghost use Rattle.stored_records.specs.SeasonRules.{misses, terms_told};
ghost use Rattle.store_validation.specs.LeagueRules.{cup_breaks, has_gap, has_key, has_other_key, is_answer, is_drawn_wrong, is_league_full, is_registered, issue_breaks, kind_told, last_breaks, league_breaks, leagues_before, member_breaks, plays_from};

use crate::entry_rules::entry_breaks;
use fpl_base::{CupId, EntryId, Gw, Key, LeagueId};
use leagues_and_cups::check_draw;
use rule_book::LeagueKind;
use season_book::Command;
use season_records::{Item, Slot};
use stored_records::{Kept, Stored, Terms, first_of, has_gameweek, is_full, misses};

// Limits of a season.
const MOST_ENTRIES: usize = 2048;

const MOST_LEAGUES: usize = 512;

const MOST_LEAGUES_OF_ONE: usize = 20;

const MOST_CUPS: usize = 32;

// Whether an id above 1 stands behind no record of the one before it.
fn has_gap(stored: &Stored, id: u32, before: Slot) -> bool
    ensures { result ≡ has_gap (map_of stored.now) id before }
{
    id != 1 && misses(stored, before)
}

// Whether an entry is there and registered.
fn is_registered(stored: &Stored, entry: u32) -> bool
    ensures { result ≡ is_registered (map_of stored.now) entry }
{
    first_of(stored, entry).is_some()
}

// Whether an entry is registered, with a first gameweek that is not after the start.
fn plays_from(stored: &Stored, start: Gw, entry: u32) -> bool
    ensures { result ≡ plays_from (map_of stored.now) start entry }
{
    match first_of(stored, entry) {
        Some(first) => first <= start,
        None => false,
    }
}

/// Whether an entry breaks a rule: there is none before it, its key is that of an entry of a smaller id, it is registered
/// and has no team in its first gameweek, or it is one too many.
pub(crate) fn issue_breaks(stored: &Stored, entry: EntryId, first: Option<Gw>, key: &Key) -> bool
    ensures { result ≡ issue_breaks stored.now entry first key.now }
{
    has_gap(stored, entry.get(), Slot::Entry(entry.get() - 1))
        || has_other_key(stored, entry, key)
        || entry_breaks(stored, entry, first)
        || is_full(
            stored,
            MOST_ENTRIES,
            Slot::Entry(0),
            Slot::Entry(entry.get()),
        )
}

// Whether an entry of a smaller id has the key.
fn has_other_key(stored: &Stored, entry: EntryId, key: &Key) -> bool
    ensures { result ≡ has_other_key stored.now entry key.now }
{
    is_key_among(
        stored.part(Slot::Entry(0).key(), Slot::Entry(entry.get()).key()),
        key,
    )
}

// Whether one of these records is that of an entry which has the key.
fn is_key_among(rows: &[Kept], key: &Key) -> bool
    ensures { result ≡ list_any (λ row. has_key key.now (item_of row.0 row.1)) rows.now }
{
    rows.iter().any(|row| has_key(row, key))
}

// Whether a record is that of an entry which has the key.
fn has_key(row: &Kept, key: &Key) -> bool
    ensures { result ≡ has_key key.now (item_of row.now.0 row.now.1) }
{
    is_key_of(row.item(), key)
}

fn is_key_of(item: Option<&Item>, key: &Key) -> bool
    ensures { result ≡ has_key key.now (option_map (λ item. item.now) item.entry) }
{
    match item {
        Some(Item::Entry { key: own, .. }) => own.bytes() == key.bytes(),
        _ => false,
    }
}

/// Whether a league breaks a rule: its start, its creator or an entry of its order is not there, its creator is no member, a
/// member is not registered, its draw is wrong, an entry of it starts after the league, there is no league before it, or it
/// is one too many.
pub(crate) fn league_breaks(
    stored: &Stored,
    terms: &Terms,
    league: LeagueId,
    kind: LeagueKind,
    start: Gw,
    creator: EntryId,
    order: &[EntryId],
) -> bool
    requires { terms.now ≡ terms_told (map_of stored.now) }
    ensures { result ≡ league_breaks stored.now league kind start creator order.now }
{
    let members = stored.members(league);
    if !has_gameweek(stored, terms, start) {
        return true;
    }
    if misses(stored, Slot::Entry(creator.get())) {
        return true;
    }
    if misses_one(stored, order) {
        return true;
    }
    if misses(stored, Slot::Member(league.get(), creator.get())) {
        return true;
    }
    if has_stranger(stored, members) {
        return true;
    }
    if is_drawn_wrong(kind, order, members) {
        return true;
    }
    if has_latecomer(stored, start, order) {
        return true;
    }
    if has_gap(stored, league.get(), Slot::League(league.get() - 1)) {
        return true;
    }
    is_full(
        stored,
        MOST_LEAGUES,
        Slot::League(0),
        Slot::League(league.get()),
    )
}

// Whether an entry of an order is not there.
fn misses_one(stored: &Stored, order: &[EntryId]) -> bool
    ensures { result ≡ list_any (λ e. misses (map_of stored.now) (slot.Entry e)) order.now }
{
    order.iter().any(|e| misses(stored, Slot::Entry(e.get())))
}

// Whether a member is not registered.
fn has_stranger(stored: &Stored, members: &[Kept]) -> bool
    ensures { result
        ≡ list_any (λ e. not (is_registered (map_of stored.now) e))
        (map (λ row. row.0.b) members.now) }
{
    has_lost_member(stored, members)
}

// The same, of the members' records.
fn has_lost_member(stored: &Stored, members: &[Kept]) -> bool
    ensures { result
        ≡ list_any (λ row. not (is_registered (map_of stored.now) row.0.b)) members.now }
{
    members
        .iter()
        .any(|row| !is_registered(stored, row.key().b))
}

// Whether a league was drawn and is a classic one, or the order is none of its members.
fn is_drawn_wrong(kind: LeagueKind, order: &[EntryId], members: &[Kept]) -> bool
    ensures { result ≡ is_drawn_wrong kind order.now (map (λ row. row.0.b) members.now) }
{
    !order.is_empty() && !(is_head(kind) && is_draw(order, members))
}

fn is_head(kind: LeagueKind) -> bool
    ensures { result ≡ is_head kind }
{
    match kind {
        LeagueKind::Classic => false,
        LeagueKind::Head => true,
    }
}

// Whether the order is one of these members, of whom there are two or more.
fn is_draw(order: &[EntryId], members: &[Kept]) -> bool
    ensures { result ≡ is_draw order.now (map (λ row. row.0.b) members.now) }
{
    members.len() >= 2 && order.len() == members.len() && have_places(order, members)
}

// Whether each member has a place in the order.
fn have_places(order: &[EntryId], members: &[Kept]) -> bool
    ensures { result
        ≡ list_all (λ row. list_any (λ place. row.0.b == place) order.now) members.now }
{
    members.iter().all(|row| has_place(order, row.key().b))
}

// Whether a member has a place in the order.
fn has_place(order: &[EntryId], member: u32) -> bool
    ensures { result ≡ list_any (λ place. member == place) order.now }
{
    order.iter().any(|place| place.get() == member)
}

// Whether an entry of an order is not registered, or starts after this gameweek.
fn has_latecomer(stored: &Stored, start: Gw, order: &[EntryId]) -> bool
    ensures { result ≡ list_any (λ e. not (plays_from (map_of stored.now) start e)) order.now }
{
    order.iter().any(|e| !plays_from(stored, start, e.get()))
}

/// Whether a member breaks a rule: the league or the entry is not there, the entry is in too many leagues, or the league has
/// too many members.
pub(crate) fn member_breaks(stored: &Stored, league: LeagueId, entry: EntryId) -> bool
    ensures { result ≡ member_breaks stored.now league entry }
{
    misses(stored, Slot::League(league.get()))
        || misses(stored, Slot::Entry(entry.get()))
        || leagues_before(stored, league, entry) >= MOST_LEAGUES_OF_ONE
        || is_league_full(stored, league, entry, kind_of(stored, league))
}

// In how many leagues of smaller ids an entry is.
fn leagues_before(stored: &Stored, league: LeagueId, entry: EntryId) -> usize
    ensures { result ≡ leagues_before (map_of stored.now) league entry }
{
    let mut count = 0;
    for l in 1..league.get() {
        if stored.has(Slot::Member(l, entry.get())) {
            count += 1;
        }
    }
    count
}

// The kind of a league.
fn kind_of(stored: &Stored, league: LeagueId) -> Option<LeagueKind>
    ensures { result ≡ kind_told (map_of stored.now) league }
{
    match stored.item(Slot::League(league.get())) {
        Some(Item::League { kind, .. }) => Some(*kind),
        _ => None,
    }
}

// Whether as many entries of smaller ids are members of a league of this kind as it allows.
fn is_league_full(
    stored: &Stored,
    league: LeagueId,
    entry: EntryId,
    kind: Option<LeagueKind>,
) -> bool
    ensures { result ≡ is_league_full stored.now league entry kind }
{
    match kind {
        Some(kind) => is_full(
            stored,
            most_members(kind),
            Slot::Member(league.get(), 0),
            Slot::Member(league.get(), entry.get()),
        ),
        None => false,
    }
}

fn most_members(kind: LeagueKind) -> usize
    ensures { result ≡ most_members kind }
{
    match kind {
        LeagueKind::Classic => MOST_ENTRIES,
        LeagueKind::Head => 64,
    }
}

/// Whether a cup breaks a rule: its start or an entrant is not there, it can't be played in the season, an entrant is not
/// registered or starts after the cup, there is no cup before it, or it is one too many.
pub(crate) fn cup_breaks(
    stored: &Stored,
    terms: &Terms,
    cup: CupId,
    start: Gw,
    slots: &[u32],
    coins: &[u8],
) -> bool
    requires { terms.now ≡ terms_told (map_of stored.now) }
    ensures { result ≡ cup_breaks stored.now cup start slots.now coins.now }
{
    if !has_gameweek(stored, terms, start) {
        return true;
    }
    if misses_entrant(stored, slots) {
        return true;
    }
    if !is_cup(start, slots, coins, terms.deadlines.as_slice().len()) {
        return true;
    }
    if has_late_entrant(stored, start, slots) {
        return true;
    }
    if has_gap(stored, cup.get(), Slot::Cup(cup.get() - 1)) {
        return true;
    }
    is_full(stored, MOST_CUPS, Slot::Cup(0), Slot::Cup(cup.get()))
}

// Whether an entrant of a cup is not there.
fn misses_entrant(stored: &Stored, slots: &[u32]) -> bool
    ensures { result
        ≡ list_any (λ e. misses (map_of stored.now) (slot.Entry e)) (entrants slots.now) }
{
    has_lost_slot(stored, slots)
}

// Whether a slot that is no bye has no entry.
fn has_lost_slot(stored: &Stored, slots: &[u32]) -> bool
    ensures { result
        ≡ list_any (λ e. not (e == 0) && misses (map_of stored.now) (slot.Entry e)) slots.now }
{
    slots
        .iter()
        .any(|e| *e != 0 && misses(stored, Slot::Entry(*e)))
}

// Whether an entrant of a cup is not registered, or starts after this gameweek.
fn has_late_entrant(stored: &Stored, start: Gw, slots: &[u32]) -> bool
    ensures { result
        ≡ list_any (λ e. not (plays_from (map_of stored.now) start e)) (entrants slots.now) }
{
    has_late_slot(stored, start, slots)
}

// Whether the entry of a slot that is no bye is not registered, or starts after this gameweek.
fn has_late_slot(stored: &Stored, start: Gw, slots: &[u32]) -> bool
    ensures { result
        ≡ list_any (λ e. not (e == 0) && not (plays_from (map_of stored.now) start e))
        slots.now }
{
    slots
        .iter()
        .any(|e| *e != 0 && !plays_from(stored, start, *e))
}

// Whether a draw can be played in a season of so many gameweeks. A cup has at most ten rounds, so no more are counted.
fn is_cup(start: Gw, slots: &[u32], coins: &[u8], gameweeks: usize) -> bool
    ensures { result
        ≡ is_cup (record { start = start; slots = slots.now; coins = coins.now }) gameweeks }
{
    let most = start.get() as usize + 10;
    let gameweeks = if gameweeks < most { gameweeks } else { most };
    check_draw(start, slots, coins, gameweeks as u8, 0).is_ok()
}

/// Whether a last command breaks a rule: its caller is neither the operator nor an entry that is there, its number is 0, or
/// its answer is none of it.
pub(crate) fn last_breaks(
    stored: &Stored,
    caller: u32,
    number: u64,
    status: u16,
    made: u32,
    command: &Command,
) -> bool
    ensures { result ≡ last_breaks (map_of stored.now) caller number status made command.now }
{
    caller != 0 && misses(stored, Slot::Entry(caller))
        || number == 0
        || !is_answer(stored, status, made, command)
}

// Whether the status and the id of what was made are those of the command.
fn is_answer(stored: &Stored, status: u16, made: u32, command: &Command) -> bool
    ensures { result ≡ is_answer (map_of stored.now) status made command.now }
{
    match command {
        Command::Key { .. } => status == 201 && stored.has(Slot::Entry(made)),
        Command::League { .. } => status == 201 && stored.has(Slot::League(made)),
        Command::Cup { .. } => status == 201 && stored.has(Slot::Cup(made)),
        _ => status == 200 && made == 0,
    }
}
